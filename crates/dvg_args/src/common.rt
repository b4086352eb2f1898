//! Common arguments, whose job is known by their words alone: the matching takes longer than a
//! small job. A law names each of them.
ghost use Rattle.std.specs.Prelude.{◌∷◌, [], IfSome, codes, map};
ghost use Rattle.dvg_args.specs.Laws.{AskFor, AreFor};

use crate::laws::{sketch_job_arguments, text_job_arguments};
use crate::showing::{USUAL_PERCENT, USUAL_RATE};
use dvg_job::{Job, LayForm, LogRule, PictureForm, Show};
use dvg_mem::Half;

// Returns the job of the subcommand `name` without an option, where it is one that reads no sketch.
fn bare_text_job(name: &str) -> Option<Job>
    ensures { IfSome result (λ j. AskFor (name.now ∷ []) j) }
{
    text_job_arguments();
    if name == "list" {
        return Some(Job::List);
    }
    if name == "rom" {
        return Some(Job::Rom);
    }
    if name == "picture" {
        return Some(Job::Picture {
            form: PictureForm::PLAIN,
        });
    }
    if name == "check" {
        return Some(Job::Check { bound: false });
    }
    if name == "play" {
        return Some(Job::Play {
            all: false,
            banked: false,
        });
    }
    if name == "torn" {
        return Some(Job::Torn {
            rule: LogRule::Halves,
            base: None,
        });
    }
    if name == "explain" {
        return Some(Job::Explain);
    }
    if name == "game" {
        return Some(Job::Game { notes: false });
    }
    None
}

// Returns the job of the subcommand `name` without an option.
fn bare_job(name: &str) -> Option<Job>
    ensures { IfSome result (λ j. AskFor (name.now ∷ []) j) }
{
    sketch_job_arguments();
    if name == "render" {
        return Some(Job::Render {
            show: Show {
                percent: USUAL_PERCENT,
                rate: USUAL_RATE,
            },
        });
    }
    if name == "lay" {
        return Some(Job::Lay {
            form: LayForm::Bytes(Half::H0),
        });
    }
    bare_text_job(name)
}

// Returns the job of `picture` with the option `flag`, where that is `--all`, `--moves` or `--svg`.
fn picture_job(flag: &str) -> Option<Job>
    ensures { IfSome result (λ j. AskFor (codes "picture" ∷ flag.now ∷ []) j) }
{
    text_job_arguments();
    if flag == "--svg" {
        return Some(Job::PictureSvg {
            percent: USUAL_PERCENT,
        });
    }
    if flag == "--moves" {
        return Some(Job::Picture {
            form: PictureForm {
                all: false,
                moves: true,
                units: false,
            },
        });
    }
    if flag == "--all" {
        return Some(Job::Picture {
            form: PictureForm {
                all: true,
                moves: false,
                units: false,
            },
        });
    }
    None
}

// Returns the job of `play` with the option `flag`, where that is `--all`, `--banked` or `--svg`.
fn play_job(flag: &str) -> Option<Job>
    ensures { IfSome result (λ j. AskFor (codes "play" ∷ flag.now ∷ []) j) }
{
    text_job_arguments();
    if flag == "--all" {
        return Some(Job::Play {
            all: true,
            banked: false,
        });
    }
    if flag == "--banked" {
        return Some(Job::Play {
            all: false,
            banked: true,
        });
    }
    if flag == "--svg" {
        return Some(Job::PlaySvg {
            banked: false,
            show: Show {
                percent: USUAL_PERCENT,
                rate: USUAL_RATE,
            },
        });
    }
    None
}

// Returns the form of `lay` with the option `flag`, where that takes no value.
fn lay_job(flag: &str) -> Option<Job>
    ensures { IfSome result (λ j. AskFor (codes "lay" ∷ flag.now ∷ []) j) }
{
    sketch_job_arguments();
    if flag == "--table" {
        return Some(Job::Lay {
            form: LayForm::Table,
        });
    }
    if flag == "--rom" {
        return Some(Job::Lay { form: LayForm::Rom });
    }
    if flag == "--equates" {
        return Some(Job::Lay {
            form: LayForm::Equates,
        });
    }
    if flag == "--draft" {
        return Some(Job::Lay {
            form: LayForm::Draft,
        });
    }
    None
}

// Returns the job of the subcommand `name` with the option `flag`, where that takes no value.
fn flag_job(name: &str, flag: &str) -> Option<Job>
    ensures { IfSome result (λ j. AskFor (name.now ∷ flag.now ∷ []) j) }
{
    text_job_arguments();
    sketch_job_arguments();
    if name == "picture" {
        return picture_job(flag);
    }
    if name == "play" {
        return play_job(flag);
    }
    if name == "lay" {
        return lay_job(flag);
    }
    if name == "check" && flag == "--bound" {
        return Some(Job::Check { bound: true });
    }
    if name == "render" && flag == "--check" {
        return Some(Job::RenderCheck);
    }
    if name == "torn" && flag == "--moments" {
        return Some(Job::Torn {
            rule: LogRule::Moments,
            base: None,
        });
    }
    if name == "game" && flag == "--notes" {
        return Some(Job::Game { notes: true });
    }
    None
}

// Returns the job of the subcommand `name` with two options, where these are the rule of `torn`.
fn two_flags_job(name: &str, first: &str, second: &str) -> Option<Job>
    ensures { IfSome result (λ j. AskFor (name.now ∷ first.now ∷ second.now ∷ []) j) }
{
    text_job_arguments();
    if name == "torn" && first == "--moments" && second == "--all" {
        return Some(Job::Torn {
            rule: LogRule::AllMoments,
            base: None,
        });
    }
    None
}

/// Returns what `arguments` ask for, where they are common ones. `None` says nothing of them.
pub(crate) fn common_job(arguments: &[&str]) -> Option<Job>
    ensures { IfSome result (AreFor (map (λ w. w.now) arguments.entry.now)) }
{
    match arguments {
        [_, name] => bare_job(name),
        [_, name, flag] => flag_job(name, flag),
        [_, name, first, second] => two_flags_job(name, first, second),
        _ => None,
    }
}
