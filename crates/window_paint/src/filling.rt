// The window filled in the list: the step's deed, the room that it needs, and the change.
ghost use Rattle.std.specs.Prelude.{◌≡◌, ◌≤◌, length, leb};
ghost use Rattle.definitions.specs.Read.{room, records_of};
ghost use Rattle.definitions.specs.Calls.PaintWindow.{filled};
ghost use Rattle.deeds.specs.Deed.{Painting, window_step};
ghost use Rattle.deeds.specs.Doing.{step_by};
ghost use Rattle.list.specs.Taken.{records_listed};
ghost use Rattle.replace.specs.Putting.{Replaced};
ghost use Rattle.window_paint.specs.PaintWindowCall.{Fillable};

use apply_deed::change;
use deeds::deed::Deed;
use deeds::doing::Doing;
use definitions::Window;
use list::accepted_list::Accepted;

// Filling a window as a deed. It reads no log.
pub fn painting(m: u32, window: Window, feature: u32) -> Doing<'static>
    requires { Painting window feature }
    ensures map { result.m ≡ m }
    ensures step { step_by result ≡ window_step window feature }
{
    Doing {
        m,
        deed: Deed::Fill(window, feature),
        log_keys: &[],
        log_values: &[],
    }
}

// The filled list will fit into so many places.
pub fn has_room(list: &Accepted<'_>, room: usize, window: Window, feature: u32) -> bool
    requires { Painting window feature }
    ensures { result ≡ leb (length (filled list.now.m (records_listed list.now) window feature)) room }
{
    change::has_room(painting(list.m, window, feature), list, room)
}

// The list becomes the filled one. Gives its number of records.
pub fn fill_window(
    m: u32,
    keys: &mut [u32],
    bits: &mut [u32],
    n: usize,
    window: Window,
    feature: u32,
) -> usize
    requires { Fillable m keys.old bits.old n window feature × (length (filled m (records_of keys.old bits.old n) window feature) ≤ room keys.old bits.old) }
    ensures { Replaced n (filled m (records_of keys.old bits.old n) window feature)
        keys.old bits.old keys.new bits.new result }
{
    change::change(painting(m, window, feature), keys, bits, n)
}
