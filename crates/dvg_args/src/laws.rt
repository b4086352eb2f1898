//! What some arguments ask for, written out. Each law is the contract of a function that does
//! nothing.
ghost use Rattle.dvg_args.specs.Laws.{HelpArguments, OtherArguments, RefusedOptions};
ghost use Rattle.dvg_args.specs.Laws.{SketchJobArguments, TextJobArguments, UnrefusedOptions};

/// Arguments that ask for a job that reads no sketch, after any name of the program, are taken and
/// ask for that job.
#[tactic(auto, using(crate::proofs::Written::text_job_arguments))]
pub fn text_job_arguments()
    ensures { TextJobArguments }
{}

/// Arguments that ask for a job that reads a sketch are taken, too, and ask for that job.
#[tactic(auto, using(crate::proofs::Written::sketch_job_arguments))]
pub fn sketch_job_arguments()
    ensures { SketchJobArguments }
{}

/// Arguments that ask for help, or for the version.
#[tactic(auto, using(crate::proofs::Written::help_arguments))]
pub fn help_arguments()
    ensures { HelpArguments }
{}

/// Arguments that ask for nothing the program can do.
#[tactic(auto, using(crate::proofs::Written::other_arguments))]
pub fn other_arguments()
    ensures { OtherArguments }
{}

/// Options that ask for nothing the program can do.
#[tactic(auto, using(crate::proofs::Written::refused_options))]
pub fn refused_options()
    ensures { RefusedOptions }
{}

/// Where no option is given that a subcommand may refuse, nothing is refused after the matching. So
/// arguments that the command takes without these options, as `play --all --banked`, fail only
/// where an allocation fails.
#[tactic(auto, using(crate::proofs::Unrefused::unrefused_options))]
pub fn unrefused_options()
    ensures { UnrefusedOptions }
{}
