//! What is proved of the rules as a whole. These functions do nothing: the contract of each is a theorem.
ghost use Rattle.rules.specs.Cases.{Table};
ghost use Rattle.rules.specs.Laws.{ChecksAreInOrder, EachListHasOneRun, RunsAreLawful};

/// Every list of commands, accepted or refused, has one run.
#[tactic(auto, using(crate::proofs::Runs::one_run))]
pub fn each_list_has_one_run()
    ensures { EachListHasOneRun }
{}

/// Every run of every description, over every bank and with every list of commands, keeps the three laws.
#[tactic(auto, using(crate::proofs::Lawful::lawful))]
pub fn runs_are_lawful()
    ensures { RunsAreLawful }
{}

/// The rules answer every case of the table as it says.
pub fn cases_are_answered()
    ensures { Table }
{}

/// No command is refused for a reason while one with a lower number applies.
pub fn checks_are_in_order()
    ensures { ChecksAreInOrder }
{}
