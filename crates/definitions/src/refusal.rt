// The refusals by name (specification S24), each a reason for which a call does nothing, and the numbers that the tables of specs/Calls and the C header give them.
ghost use Rattle.std.specs.Prelude.{◌≡◌};
ghost use Rattle.definitions.specs.Refused.{refusal_number};

#[derive(Clone, Copy, PartialEq, Eq)]
pub enum Refusal {
    // m or s is out of range.
    Settings,

    // The raster's length is not that of m.
    RasterLength,

    // A pixel is s or more.
    Pixel,

    // The records are no raster's list.
    List,

    // The log is not sound, or what is in force ends inside a step.
    Log,

    // Not a window of this raster.
    Window,

    // The feature is s or more.
    Feature,

    // The key is not valid at m.
    Key,

    // The list afterwards would exceed its room.
    ListRoom,

    // The log afterwards would exceed its room.
    LogRoom,

    // There is no step to take back.
    LogEmpty,

    // The answer exceeds its room; the places needed are told.
    AnswerRoom(u64),

    // Rule ids do not ascend, or a rule has a bad window or feature.
    Rules,

    // Not a table of waivers, a bad key, or an id of no rule.
    Waivers,

    // The file is too short, or has not the length that its head says.
    FileLength,

    // The file does not begin with its mark.
    FileMark,

    // The file has a version that is not read.
    FileVersion,

    // The summary has a wrong length, or does not hold this map's counts.
    Summary,

    // The leaves do not ascend, or do not cover the map.
    Leaves,

    // There is no step to redo.
    NoRedo,

    // The office is neither 0 nor 1.
    Office,

    // The row to add is there, or the row to remove is not.
    Row,

    // What is to be read or written is no pair of bit strings.
    BitStrings,

    // The two lists to combine have different m.
    Resolution,

    // The table of classes has a wrong length, or an entry that is no class.
    ClassTable,
}

// Its number, by which C knows it.
impl From<Refusal> for u64 {
    ghost from_gives = { λ refusal number. number ≡ refusal_number refusal };

    fn from(refusal: Refusal) -> u64 {
        match refusal {
            Refusal::Settings => 1,
            Refusal::RasterLength => 2,
            Refusal::Pixel => 3,
            Refusal::List => 4,
            Refusal::Log => 5,
            Refusal::Window => 6,
            Refusal::Feature => 7,
            Refusal::Key => 8,
            Refusal::ListRoom => 9,
            Refusal::LogRoom => 10,
            Refusal::LogEmpty => 11,
            Refusal::AnswerRoom(_) => 12,
            Refusal::Rules => 13,
            Refusal::Waivers => 14,
            Refusal::FileLength => 15,
            Refusal::FileMark => 16,
            Refusal::FileVersion => 17,
            Refusal::Summary => 18,
            Refusal::Leaves => 19,
            Refusal::NoRedo => 20,
            Refusal::Office => 21,
            Refusal::Row => 22,
            Refusal::BitStrings => 23,
            Refusal::Resolution => 24,
            Refusal::ClassTable => 25,
        }
    }
}
