// What painting a window makes of a block: it lies apart from the window, or within it, or the window cuts it.
ghost use Rattle.deeds.specs.Deed.{Painting, WindowMet};
ghost use Rattle.deeds.specs.Meeting.{BlockAsked};

use crate::meeting::Meeting;
use definitions::Window;
use keys::block::{TreeBlock, square};
use keys::power;
use walk::lying;
use walk::lying::Lie;

// What the window makes of it, whatever log there is: none is looked at.
pub fn meeting(window: Window, feature: u32, m: u32, block: TreeBlock) -> Meeting
    requires { Painting window feature × BlockAsked m block }
    ensures { WindowMet window feature block result }
{
    let lie = lying::lies(square(block), window);
    match lie {
        Lie::Apart => Meeting::Apart,
        Lie::Within => Meeting::Leaf(power::power_of_two(feature)),
        Lie::Cut => Meeting::Cut,
    }
}
