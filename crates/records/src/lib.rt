// What the record of a list of items is, with no monitor in sight.
#![tactic(auto)]

ghost use Rattle.std.specs.Prelude.{◌≡◌, true};
ghost use Rattle.records.specs.Coming.{ComingLaws};
ghost use Rattle.records.specs.Laws.{Laws};
ghost use Rattle.records.specs.Partials.{KeepsAll};
ghost use Rattle.records.specs.Recalling.{Recalls, Wakes};
ghost use Rattle.records.specs.Standing.{StandingLaws};
ghost use Rattle.records.specs.Worked.{all_pass, worked_cases};

pub mod entry;

// Whole records, worked by hand.
pub fn worked()
    ensures { all_pass worked_cases ≡ true }
{}

// What holds of every record.
pub fn laws()
    ensures { Laws }
{}

// How a record goes on, entry by entry.
pub fn coming()
    ensures { ComingLaws }
{}

// The latest nine values of each stream, and the panes of each window, suffice to go on.
pub fn recalling()
    ensures entries { Recalls }
    ensures active { Wakes }
    ensures partials { KeepsAll }
{}

// How far a record has come, whatever is given later.
pub fn standing()
    ensures { StandingLaws }
{}
