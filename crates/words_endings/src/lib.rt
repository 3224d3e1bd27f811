// The endings of a run: the number of each, and the word that is printed for it.
#![tactic(auto)]

ghost use Rattle.std.specs.Prelude.{◌≡◌};
ghost use Rattle.words.specs.Answers.{fault_number, fault_numbered, fault_name, ending_number, ending_name};

use words::{Ending, FaultSort};

pub fn fault_number(sort: FaultSort) -> u32
    ensures { result ≡ fault_number sort }
{
    match sort {
        FaultSort::Overflow => 2,
        FaultSort::ZeroDivisor => 3,
        FaultSort::Index => 4,
        FaultSort::Guard => 5,
    }
}

// The fault with a number.
pub fn fault_numbered(number: u64) -> FaultSort
    ensures { result ≡ fault_numbered number }
{
    match number {
        2 => FaultSort::Overflow,
        3 => FaultSort::ZeroDivisor,
        5 => FaultSort::Guard,
        _ => FaultSort::Index,
    }
}

pub fn fault_name(sort: FaultSort) -> &'static str
    ensures { result.now ≡ fault_name sort }
{
    match sort {
        FaultSort::Overflow => "overflow",
        FaultSort::ZeroDivisor => "zero",
        FaultSort::Index => "index",
        FaultSort::Guard => "guard",
    }
}

pub fn ending_number(ending: Ending) -> u32
    ensures { result ≡ ending_number ending }
{
    match ending {
        Ending::Plain => 0,
        Ending::Spent => 1,
        Ending::Fault(sort) => fault_number(sort),
    }
}

pub fn ending_name(ending: Ending) -> &'static str
    ensures { result.now ≡ ending_name ending }
{
    match ending {
        Ending::Plain => "ended",
        Ending::Spent => "spent",
        Ending::Fault(sort) => fault_name(sort),
    }
}
