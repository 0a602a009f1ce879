// The settings of a map: resolution m and slots s (refusal 1).
ghost use Rattle.std.specs.Prelude.{◌≡◌};
ghost use Rattle.definitions.specs.Refusal.{bad_settings};

use keys::Key;

pub fn are_bad(m: u32, s: u32) -> bool
    ensures { result ≡ bad_settings m s }
{
    if Key::DEEPEST_LEVEL < m {
        return true;
    }
    if s == 0 {
        return true;
    }
    Key::SLOT_LIMIT < s
}
