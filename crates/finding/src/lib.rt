// Sifting: the findings of one rule, in key order, against the keys of the rule's waivers, which ascend too. So one merge decides which are hidden: `waivers`
// has it. The walk over the window is that of select; what is given goes into `sift`.
#![tactic(auto)]

ghost use Rattle.std.specs.Prelude.{◌≡◌, true, [], ◌∷◌, ◌+◌, ◌<◌, ◌^◌, length, drop};
ghost use Rattle.keys.specs.Key.{slot_limit, valid_key};
ghost use Rattle.definitions.specs.Edit.{content_of};
ghost use Rattle.definitions.specs.Window.{is_window, select_in};
ghost use Rattle.definitions.specs.Rules.{window_of_rule};
ghost use Rattle.list.specs.Taken.{records_listed, picture_listed, place_listed};
ghost use Rattle.walk.specs.Walk.{BlockSpot};
ghost use Rattle.walk.specs.Given.{keys_with};
ghost use Rattle.finding.specs.Covering.{end_of};
ghost use Rattle.finding.specs.Sift.{keys_until, SiftReady, RunReady, Sifted};

pub mod job;
pub mod waivers;

use definitions::{Rule, Standing, Window};
use job::Job;
use keys::power;
use list::accepted_list::Accepted;
use walk::Spot;

// How far the rule's waivers are passed and their furthest end, and how many findings were live and hidden.
#[derive(Clone, Copy, PartialEq, Eq)]
pub struct Sifting {
    pub passed: usize,
    pub furthest: u32,
    pub live: usize,
    pub hidden: usize,
}

// The two slices that findings are written to go from function to function one by one, as the C interface lends them: a type of two `&mut` slices would
// only wrap them at each call.
// One finding: it is hidden if the waivers cover its block, and otherwise written and live.
fn sift(
    job: &Job<'_>,
    key: u32,
    found_ids: &mut [u32],
    found_keys: &mut [u32],
    at: Sifting,
) -> Sifting
    requires { (valid_key job.now.list.m key ≡ true)
        × SiftReady job.now.list.m job.now.limit job.now.waived.now at found_ids.old found_keys.old (2 ^ 62) key }
    ensures { Sifted job.now.list.m job.now.limit job.now.id job.now.waived.now (key ∷ []) at result
        found_ids.old found_ids.new found_keys.old found_keys.new (end_of job.now.list.m key) }
{
    let settled = waivers::settle(job.list.m, job.waived, key, at.passed, at.furthest);
    let passed = settled.passed;
    let furthest = settled.furthest;
    let live = at.live;
    let hidden = at.hidden;
    if settled.hidden {
        let more = hidden + 1;
        return Sifting {
            passed,
            furthest,
            live,
            hidden: more,
        };
    }
    slices::write_within(found_ids, job.limit, live, job.id);
    slices::write_within(found_keys, job.limit, live, key);
    let more = live + 1;
    Sifting {
        passed,
        furthest,
        live: more,
        hidden,
    }
}

// The findings among the records from a place on, up to the first record whose key is at or past the end.
fn sift_run(
    job: &Job<'_>,
    first: usize,
    end: u32,
    found_ids: &mut [u32],
    found_keys: &mut [u32],
    at: Sifting,
) -> Sifting
    requires { RunReady job.now.list.m job.now.limit job.now.waived.now at found_ids.old found_keys.old (2 ^ 60)
        job.now.list.keys.now (length job.now.list.keys.now) first end }
    ensures { Sifted job.now.list.m job.now.limit job.now.id job.now.waived.now
        (keys_until end job.now.bit (drop first (records_listed job.now.list))) at result
        found_ids.old found_ids.new found_keys.old found_keys.new end }
{
    let keys = job.list.keys;
    let bits = job.list.bits;
    let bit = job.bit;
    let mut st = at;
    for place in first..keys.len() {
        let key = keys[place];
        if end <= key {
            return st;
        }
        if bits[place] == bit {
            st = sift(job, key, found_ids, found_keys, st);
        }
    }
    st
}

// The findings in a block that lies in the rule's window, where the last record at or before its key is known: the block itself where that record has
// the bit alone, whether it is its own or that of the leaf around it; else its leaves with the bit, by its standing.
fn sift_block(
    job: &Job<'_>,
    from: usize,
    block: Spot,
    found_ids: &mut [u32],
    found_keys: &mut [u32],
    at: Sifting,
) -> Sifting
    requires { BlockSpot job.now.list.m block × (from ≡ place_listed job.now.list block.key)
        × SiftReady job.now.list.m job.now.limit job.now.waived.now at found_ids.old found_keys.old (2 ^ 60) block.key }
    ensures { Sifted job.now.list.m job.now.limit job.now.id job.now.waived.now
        (keys_with job.now.bit (content_of job.now.list.m (picture_listed job.now.list) block.key)) at result
        found_ids.old found_ids.new found_keys.old found_keys.new (block.key + block.step) }
{
    let bits = job.list.bits;
    let bit = job.bit;
    let key = block.key;
    let step = block.step;
    if bits[from] == bit {
        return sift(job, key, found_ids, found_keys, at);
    }
    match job.list.stand_from(from, key, step) {
        Standing::Listed(place, _) => sift_run(job, place, key + step, found_ids, found_keys, at),
        Standing::Inside(around, _, _) => {
            if bits[around] == bit {
                sift(job, key, found_ids, found_keys, at)
            } else {
                at
            }
        }
    }
}

// The findings of a rule.
pub fn sift_rule(
    rule: Rule,
    list: &Accepted<'_>,
    waived: &[u32],
    limit: usize,
    found_ids: &mut [u32],
    found_keys: &mut [u32],
    at: Sifting,
) -> Sifting
    requires { (is_window list.now.m (window_of_rule rule) ≡ true) × (rule.feature < slot_limit)
        × SiftReady list.now.m limit waived.now at found_ids.old found_keys.old (2 ^ 59) 0 }
    ensures { Sifted list.now.m limit rule.id waived.now (select_in list.now.m (picture_listed list.now) (window_of_rule rule) rule.feature) at result
        found_ids.old found_ids.new found_keys.old found_keys.new (5 ^ list.now.m) }
{
    let window = Window {
        row: rule.row,
        column: rule.column,
        height: rule.height,
        width: rule.width,
    };
    let bit = power::power_of_two(rule.feature);
    let job = Job {
        list: *list,
        waived,
        id: rule.id,
        bit,
        limit,
    };
    let mut st = at;
    let mut spot = walk::start(list.m);
    let mut from = 0;
    loop {
        loop {
            if walk::apart(spot, window) {
                break;
            }
            from = list.place_from(from, spot.key);
            let lacking = list.bits[from] & bit == 0;
            if lacking {
                break;
            }
            if walk::within(spot, window) {
                st = sift_block(&job, from, spot, found_ids, found_keys, st);
                break;
            }
            spot = walk::first(spot);
        }
        let Some(next) = walk::after(list.m, spot) else {
            return st;
        };
        spot = next;
    }
}
