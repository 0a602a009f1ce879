// Files for C: store and load, of a list and of a log.
ghost use Rattle.std.specs.Prelude.{◌≡◌};
ghost use Rattle.definitions.specs.Calls.Store.{store as store_answer, store_file};
ghost use Rattle.definitions.specs.Calls.Load.{load as load_answer, load_keys, load_bits};
ghost use Rattle.definitions.specs.Calls.StoreLog.{store_log as store_log_answer, store_log_file};
ghost use Rattle.definitions.specs.Calls.LoadLog.{load_log as load_log_answer, load_log_keys, load_log_values};

use definitions::{Counted, Loaded, LoadedLog};
use file::{load, store};

#[unsafe(no_mangle)]
pub extern "C" fn hlq_store(
    m: u32,
    s: u32,
    keys: &[u32],
    bits: &[u32],
    n: usize,
    file: &mut [u8],
) -> Counted
    ensures value { result ≡ store_answer m s keys.now bits.now n file.old }
    ensures file_after { file.new ≡ store_file m s keys.now bits.now n file.old }
{
    store::store(m, s, keys, bits, n, file).into()
}

#[unsafe(no_mangle)]
pub extern "C" fn hlq_load(file: &[u8], keys: &mut [u32], bits: &mut [u32]) -> Loaded
    ensures value { result ≡ load_answer file.now keys.old bits.old }
    ensures keys_after { keys.new ≡ load_keys file.now keys.old bits.old }
    ensures bits_after { bits.new ≡ load_bits file.now keys.old bits.old }
{
    load::load(file, keys, bits).into()
}

#[unsafe(no_mangle)]
pub extern "C" fn hlq_store_log(
    m: u32,
    s: u32,
    log_keys: &[u32],
    log_values: &[u32],
    used: usize,
    in_force: usize,
    file: &mut [u8],
) -> Counted
    ensures value { result ≡ store_log_answer m s log_keys.now log_values.now used in_force file.old }
    ensures file_after { file.new ≡ store_log_file m s log_keys.now log_values.now used in_force file.old }
{
    log_file::store::store(m, s, log_keys, log_values, used, in_force, file).into()
}

#[unsafe(no_mangle)]
pub extern "C" fn hlq_load_log(
    file: &[u8],
    log_keys: &mut [u32],
    log_values: &mut [u32],
) -> LoadedLog
    ensures value { result ≡ load_log_answer file.now log_keys.old log_values.old }
    ensures log_keys_after { log_keys.new ≡ load_log_keys file.now log_keys.old log_values.old }
    ensures log_values_after { log_values.new ≡ load_log_values file.now log_keys.old log_values.old }
{
    log_file::load::load(file, log_keys, log_values).into()
}
