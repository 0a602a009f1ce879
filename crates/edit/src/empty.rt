// Empty (specification S12.14).
ghost use Rattle.std.specs.Prelude.{◌≡◌};
ghost use Rattle.definitions.specs.Calls.Empty.{emptied};

use definitions::Emptied;

// Emptying sets both counts to 0 and touches nothing else.
pub fn empty() -> Emptied
    ensures { result ≡ emptied }
{
    Emptied {
        used: 0,
        in_force: 0,
    }
}
