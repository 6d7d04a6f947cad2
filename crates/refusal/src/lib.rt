// Why a call is refused: the rule that is broken, and the place where it is (document 01, Numbers given on refusal; document 02 adds to them).
#![tactic(auto)]

ghost use Rattle.std.specs.Prelude.{◌≡◌};
ghost use Rattle.refusal.specs.Refused.{number_of, fault_number, rule_of, RulesAreNumbered, NumbersTellRules, FaultsAreRules, NumbersByCase, FaultsByCase, RefusalsByCase, RulesByCase};

// The rules, with their numbers.
#[derive(Clone, Copy, Debug, PartialEq, Eq)]
pub enum Rule {
    MessageTooShort = 1,
    MessageTooLong = 2,
    BadCookie = 3,
    OptionTruncated = 4,
    NoEnd = 5,
    BadOverload = 6,
    Duplicate = 7,
    BadLength = 8,
    BadValue = 9,
    BadCode = 10,
    NoRoom = 11,
    RecordTruncated = 12,
    RecordTooLong = 13,
    RouterBeforeMask = 14,
    BadPermission = 15,
    SheetTooLong = 16,
    ItemTruncated = 17,
    BadIndexCount = 18,
    BadIndexEntry = 19,
    BadGroup = 20,
    TooDeep = 21,
    NoWayBack = 22,
    RelayNotLast = 23,
    BadCapture = 24,
    NoReply = 25,
    BadRoute = 26,
}

// A rule and the place where it is broken.
#[derive(Clone, Copy, Debug, PartialEq, Eq)]
pub struct Refusal {
    pub rule: Rule,
    pub place: usize,
}

impl Rule {
    // The number that the rules are known by.
    pub fn number(self) -> u32
        ensures { result ≡ number_of self }
    {
        self as u32
    }

    // The refusal by this rule at a place.
    pub fn at(self, place: usize) -> Refusal
        ensures { result ≡ record { rule = self; place = place } }
    {
        Refusal { rule: self, place }
    }
}

// How data break the row of their kind (document 01, The kinds, by code): by their length, or by their value.
#[derive(Clone, Copy, Debug, PartialEq, Eq)]
pub enum Fault {
    Length = 8,
    Value = 9,
}

impl Fault {
    // Its number, which is that of the rule.
    pub fn number(self) -> u32
        ensures { result ≡ fault_number self }
    {
        self as u32
    }
}

impl From<Fault> for Rule {
    ghost from_gives = { λ f r. r ≡ rule_of f };

    fn from(fault: Fault) -> Rule {
        match fault {
            Fault::Length => Rule::BadLength,
            Fault::Value => Rule::BadValue,
        }
    }
}

// The statements of specs/ hold.
pub fn proved()
    ensures { RulesAreNumbered × NumbersTellRules × FaultsAreRules × NumbersByCase × FaultsByCase × RefusalsByCase × RulesByCase }
{}
