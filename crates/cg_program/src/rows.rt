//! The definitions of the command line meet command lines written out.
ghost use Rattle.cg_program.specs.Rows.{ExplainRows, FaultRows, GoingOnRows, KnownRows, LimitRows};

/// With `--known` a name of the file table may stand there, and no other.
pub fn known_rows()
    ensures { KnownRows }
{}

/// Which limit counts, where it is given in several places.
pub fn limit_rows()
    ensures { LimitRows }
{}

/// Words that ask for the help or the version, and words that are wrong.
pub fn fault_rows()
    ensures { FaultRows }
{}

/// Where `--explain` is used, before the command's word or after it.
pub fn explain_rows()
    ensures { ExplainRows }
{}

/// Where `--keep-going` is used, and what it goes with.
pub fn going_on_rows()
    ensures { GoingOnRows }
{}
