// Agreement, proved over all runs: the methods, as definitions over what a board has counted; the runs that there are; and what is promised of each of them.
// A run knows who starts and who counts which vote, in which order. How a board stores what it has counted, how words travel, and how boards are joined is left
// to the crates above, which are proved against these definitions.
// Each function here stands for a theorem: its contract says it, and the check asks for its proof. Called, it does nothing.

#![tactic(auto)]

ghost use Rattle.agreement.specs.Promises.{Agreement, EchoBindsWhateverStarts, EveryRunGoesOn};
ghost use Rattle.agreement.specs.Plain.Played.{PlainRunsHappen};
ghost use Rattle.agreement.specs.Echo.Played.{EchoRunsHappen};

// In every run, honest boards never part: decisions at most one step apart, each in the span of the honest starting characters, the first one binding,
// and a decision at every steady board once all that steady boards have posted is counted.
pub fn agreement_holds()
    ensures { Agreement }
{}

// In the echo method the first decision binds even where boards that have not started yet may start with any character.
pub fn echo_binds_whatever_starts()
    ensures { EchoBindsWhateverStarts }
{}

// Every run can go on until all that steady boards have posted is counted.
pub fn every_run_goes_on()
    ensures { EveryRunGoesOn }
{}

// There are runs of either method that decide on a character, with each grade, and on none.
pub fn runs_happen()
    ensures plain { PlainRunsHappen }
    ensures echo { EchoRunsHappen }
{}
