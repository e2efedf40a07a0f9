//! The refusals of document 01's table and of the tools: what a call answers that gives nothing, each with its number (tables/refusals.txt).
#![tactic(auto)]

ghost use Rattle.std.specs.Prelude.{◌≡◌, ◌≤◌, ◌<◌};
ghost use Rattle.refusal.specs.Refusal.{number_of, Known, Decodes};

/// Why a call gave nothing. The number of a refusal is that of the papers' tables.
#[derive(Clone, Copy, Debug, PartialEq, Eq)]
pub enum Refusal {
    /// The output lent is under 256 bytes (a list, a value), 4,096 (a plan), 2,048 (a sheet, JSON) or 16,384 (a sheet's text).
    OutputSmall = 1,
    /// The scratch lent is under 65,536 bytes.
    ScratchSmall = 2,
    /// The allowance is 0 or over 1,000,000.
    AllowanceRange = 3,
    /// A record of the sheet has an unknown kind or stands out of its place.
    SheetKind = 10,
    /// The sheet ends within a record.
    SheetCut = 11,
    /// The sheet has a 9th section or a 201st node.
    SheetFull = 12,
    /// The k, a node, section, test or the number of a `1D` is out of range.
    SheetRange = 13,
    /// The sheet has no byte or no node.
    SheetEmpty = 14,
    /// A value of the plan is cut or malformed.
    PlanMalformed = 20,
    /// A value of the plan has over 256 bytes.
    PlanLong = 21,
    /// The plan has too few values, or bytes behind them.
    PlanCount = 22,
    /// The variable's number is not below the count of the starts, or the sheet's k.
    Variable = 23,
    /// The starts are not 1 to 16 numbers that rise from 0, all below the plan's length.
    Starts = 24,
    /// The list sent back, or the value for JSON, is cut or malformed.
    ViewMalformed = 30,
    /// The list sent back, or the value for JSON, has over 256 bytes.
    ViewLong = 31,
    /// The list sent back, or the value for JSON, is not exactly one value.
    ViewCount = 32,
    /// The walk goes deeper than 48 nodes.
    Depth = 40,
    /// The allowance is spent before the walk ends.
    Spent = 41,
    /// The sheet names a variable that is not in scope.
    Scope = 42,
    /// A value taken apart, added to or used as a rest is of the wrong kind.
    ValueKind = 43,
    /// A value made on the way has over 256 bytes.
    ValueLong = 44,
    /// A sum is over 65,535.
    Sum = 45,
    /// A branch gives what its own test refuses.
    Test = 46,
    /// The list sent back changes what the sheet fixes.
    Constant = 50,
    /// A part of the list sent back is of another kind than the sheet gives.
    ViewKind = 51,
    /// A number of the list sent back is below the amount that the sheet adds.
    ViewBelow = 52,
    /// The list sent back passes the test of neither branch of a case.
    NoBranch = 53,
    /// Two places of the list sent back that come from one variable differ.
    Clash = 54,
    /// The input is no job: its first byte is unknown, it is cut, or bytes stand behind the plan of a get.
    JobMalformed = 60,
    /// The input has over 8,192 bytes.
    JobLong = 61,
    /// The text is not JSON for a value, or a number in it is over 4,294,967,295.
    JsonMalformed = 70,
    /// Arrays and objects nest 49 deep.
    JsonDepth = 71,
    /// The value of the text has over 256 bytes.
    JsonLong = 72,
    /// A type is malformed or has over 256 bytes, or the types are too few or too many.
    TypesMalformed = 80,
    /// A node of the sheet is used twice as a child or a root.
    NodeTwice = 81,
    /// A node's type does not go with its kind, its scope, its place or its children's types.
    NodeType = 82,
    /// The two sheets have another k.
    SheetsDiffer = 83,
    /// Both sheets together, with the pair, have over 200 nodes or 8 sections.
    JoinFull = 84,
    /// The new plan is malformed, has a value of over 256 bytes, or another count of values than k.
    NewPlan = 85,
    /// The sheet has a node of another kind than `10` to `16`, `1B` and `1D`.
    OtherKind = 87,
    /// The variable counts over 256 times in the list, so that no plan reads out.
    GrowthLarge = 88,
    /// Another token is expected in the text, or the text ends too early.
    TextToken = 90,
    /// A name in the text stands for nothing: no variable is in scope, or no section is written, by that name.
    TextName = 91,
    /// A name in the text is given twice, in one scope or to two sections.
    TextTaken = 92,
    /// A number in the text has a 0 in front or a letter behind it, or is too large.
    TextNumber = 93,
    /// The text has a 17th value of the plan, a 9th section or a 201st node.
    TextFull = 94,
}

impl Refusal {
    /// Its number in the papers' tables, 1 to 94.
    pub fn number(self) -> u8
        ensures { result ≡ number_of self }
    {
        self as u8
    }
}

/// A number that no refusal has.
#[derive(Clone, Copy, Debug, PartialEq, Eq)]
pub struct NoRefusal(pub u8);

impl From<Refusal> for u8 {
    ghost from_gives = { λ r n. n ≡ number_of r };

    fn from(refusal: Refusal) -> u8 {
        refusal.number()
    }
}

impl TryFrom<u8> for Refusal {
    type Error = NoRefusal;

    ghost try_from_gives = { Decodes };

    fn try_from(number: u8) -> Result<Self, NoRefusal> {
        let known = if number < 50 {
            below_50(number)
        } else {
            from_50(number)
        };
        match known {
            Some(refusal) => Ok(refusal),
            None => Err(NoRefusal(number)),
        }
    }
}

// The refusal that has this number, of those under 50.
fn below_50(number: u8) -> Option<Refusal>
    requires { number < 50 }
    ensures { Known number result }
{
    match number {
        1 => Some(Refusal::OutputSmall),
        2 => Some(Refusal::ScratchSmall),
        3 => Some(Refusal::AllowanceRange),
        10 => Some(Refusal::SheetKind),
        11 => Some(Refusal::SheetCut),
        12 => Some(Refusal::SheetFull),
        13 => Some(Refusal::SheetRange),
        14 => Some(Refusal::SheetEmpty),
        20 => Some(Refusal::PlanMalformed),
        21 => Some(Refusal::PlanLong),
        22 => Some(Refusal::PlanCount),
        23 => Some(Refusal::Variable),
        24 => Some(Refusal::Starts),
        30 => Some(Refusal::ViewMalformed),
        31 => Some(Refusal::ViewLong),
        32 => Some(Refusal::ViewCount),
        40 => Some(Refusal::Depth),
        41 => Some(Refusal::Spent),
        42 => Some(Refusal::Scope),
        43 => Some(Refusal::ValueKind),
        44 => Some(Refusal::ValueLong),
        45 => Some(Refusal::Sum),
        46 => Some(Refusal::Test),
        _ => None,
    }
}

// The refusal that has this number, of the others.
fn from_50(number: u8) -> Option<Refusal>
    requires { 50 ≤ number }
    ensures { Known number result }
{
    match number {
        50 => Some(Refusal::Constant),
        51 => Some(Refusal::ViewKind),
        52 => Some(Refusal::ViewBelow),
        53 => Some(Refusal::NoBranch),
        54 => Some(Refusal::Clash),
        60 => Some(Refusal::JobMalformed),
        61 => Some(Refusal::JobLong),
        70 => Some(Refusal::JsonMalformed),
        71 => Some(Refusal::JsonDepth),
        72 => Some(Refusal::JsonLong),
        80 => Some(Refusal::TypesMalformed),
        81 => Some(Refusal::NodeTwice),
        82 => Some(Refusal::NodeType),
        83 => Some(Refusal::SheetsDiffer),
        84 => Some(Refusal::JoinFull),
        85 => Some(Refusal::NewPlan),
        87 => Some(Refusal::OtherKind),
        88 => Some(Refusal::GrowthLarge),
        90 => Some(Refusal::TextToken),
        91 => Some(Refusal::TextName),
        92 => Some(Refusal::TextTaken),
        93 => Some(Refusal::TextNumber),
        94 => Some(Refusal::TextFull),
        _ => None,
    }
}
