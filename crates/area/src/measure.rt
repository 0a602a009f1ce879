// The area of a feature in a window: the walk goes down the list and the window together, and counts as much as it can at once.
ghost use Rattle.std.specs.Prelude.{◌≡◌, true, ◌*◌, ◌≤◌, ◌<◌, ◌^◌};
ghost use Rattle.keys.specs.Key.{slot_limit};
ghost use Rattle.definitions.specs.Window.{is_window};
ghost use Rattle.definitions.specs.Area.{area_in, summary_of};
ghost use Rattle.list.specs.Taken.{picture_listed};
ghost use Rattle.walk.specs.Walk.{BlockSpot};
ghost use Rattle.area.specs.Number.{summary_number};
ghost use Rattle.area.specs.Tally.{WholeAsked, WholeCounted};

use crate::{overlap, tally};
use definitions::Window;
use keys::power;
use list::accepted_list::Accepted;
use walk::Spot;

// The number of a block of level 2 in key order, by the first two digits of its key.
fn number_of(m: u32, block: Spot) -> u32
    requires { (m ≤ 10) × BlockSpot m block × (block.side * 4 ≡ 2 ^ m) }
    ensures { (result ≡ summary_number block) × (result < 16) }
{
    let digits = block.key / block.step;
    (digits / 5 - 1) * 4 + (digits % 5 - 1)
}

// The pixels of a block of several features that have one of them: of a block of the summary a number there, of a smaller one counted from its records,
// which begin at a place.
fn block_pixels(
    list: &Accepted<'_>,
    s: u32,
    summary: &[u32],
    from: usize,
    block: Spot,
    feature: u32,
) -> u32
    requires { (s ≤ slot_limit) × (feature < s) × BlockSpot list.now.m block × WholeAsked list.now.m s list.now.bits.now summary.now block from }
    ensures { WholeCounted list.now.m s list.now.bits.now summary.now block from feature result }
{
    let side = block.side;
    if side * 4 == power::power_of_two(list.m) {
        let place = number_of(list.m, block) * s + feature;
        return summary[place as usize];
    }
    tally::tally_node(list.bits, power::power_of_two(feature), from, side * side).pixels
}

// How many pixels of the window have the feature. A block of the feature alone adds its overlap with the window and is not entered. One with the feature
// and others adds its own count, where the window holds it and it is no larger than the summary's blocks; else it is entered.
pub fn area_in(list: &Accepted<'_>, s: u32, summary: &[u32], window: Window, feature: u32) -> u32
    requires asked { (s ≤ slot_limit) × (feature < s) × (is_window list.now.m window ≡ true) }
    requires summary_value { summary.now ≡ summary_of list.now.m s (picture_listed list.now) }
    ensures { result ≡ area_in (picture_listed list.now) window feature }
{
    let bit = power::power_of_two(feature);
    let side = power::power_of_two(list.m);
    let mut pixels = 0;
    let mut spot = walk::start(list.m);
    let mut from = 0;
    loop {
        loop {
            if walk::apart(spot, window) {
                break;
            }
            from = list.place_from(from, spot.key);
            let found = list.bits[from];
            if found & bit == 0 {
                break;
            }
            if found == bit {
                pixels = pixels + overlap::overlap(spot, window);
                break;
            }
            if overlap::is_whole(side, spot, window) {
                pixels = pixels + block_pixels(list, s, summary, from, spot, feature);
                break;
            }
            spot = walk::first(spot);
        }
        let Some(next) = walk::after(list.m, spot) else {
            return pixels;
        };
        spot = next;
    }
}
