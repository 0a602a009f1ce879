// The work on one rule: what is the same for all of its findings.
ghost use Rattle.std.specs.Prelude.{◌≡◌, true};
ghost use Rattle.list.specs.Check.{one_slot};

use list::accepted_list::Accepted;

// The list, the keys of the rule's waivers, the rule's id and its feature's bit, and how many findings may be written.
#[derive(Clone, Copy)]
pub struct Job<'a> {
    pub list: Accepted<'a>,
    pub waived: &'a [u32],
    pub id: u32,
    pub bit: u32,
    pub limit: usize,
    pub ghost one_feature: { one_slot bit ≡ true },
}
