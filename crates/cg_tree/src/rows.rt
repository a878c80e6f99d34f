//! Findings by example. The function takes and answers nothing: its contract is a table of examples.
ghost use Rattle.cg_tree.specs.Rows.{NoEntries, BrokenByTwo, RootWithProcesses, NotAvailable, ThreadedDomain, DomainInvalid, RootBesideBare, TwiceTheSame};

/// Entries and what they break.
pub fn finding_rows()
    ensures no_entries { NoEntries }
    ensures broken_by_two { BrokenByTwo }
    ensures root_with_processes { RootWithProcesses }
    ensures not_available { NotAvailable }
    ensures threaded_domain { ThreadedDomain }
    ensures domain_invalid { DomainInvalid }
    ensures root_beside_bare { RootBesideBare }
    ensures twice_the_same { TwiceTheSame }
{}
