// The numbers of each answer: those of what an entry gives, or of its refusal.
ghost use Rattle.std.specs.Prelude.{◌≡◌};
ghost use Rattle.words.specs.Numbers.{refused as refused_of, run_numbers};
ghost use Rattle.program_dispatcher.specs.DispatcherRuns.{dispatcher_numbers};
ghost use Rattle.program_previews.specs.Previews.{told_run, tally_of};
ghost use Rattle.exports.specs.Numbers.{answer_of, run_answer, verdict_answer, preview_answer, size_answer, sizes_answer};

use super::{Answer, PreviewAnswer};
use words::{Ending, Refusal, RunAnswer};
use words_endings::ending_number;

impl From<Refusal> for Answer {
    ghost from_gives = { λ refusal answer. answer ≡ answer_of (refused_of refusal.number refusal.place) };

    fn from(refusal: Refusal) -> Answer {
        Answer {
            cause: refusal.cause.number(),
            first: refusal.place,
            second: 0,
        }
    }
}

impl From<Result<(), Refusal>> for Answer {
    ghost from_gives = { λ verdict answer. answer ≡ verdict_answer verdict };

    fn from(verdict: Result<(), Refusal>) -> Answer {
        match verdict {
            Ok(()) => Answer {
                cause: 0,
                first: 0,
                second: 0,
            },
            Err(refusal) => Answer::from(refusal),
        }
    }
}

impl From<Result<RunAnswer, Refusal>> for Answer {
    ghost from_gives = { λ verdict answer. answer ≡ run_answer verdict };

    fn from(verdict: Result<RunAnswer, Refusal>) -> Answer {
        match verdict {
            Ok(run) => Answer {
                cause: 0,
                first: ending_number(run.ending) as usize,
                second: run.count as usize,
            },
            Err(refusal) => Answer::from(refusal),
        }
    }
}

impl From<Result<Ending, Refusal>> for Answer {
    ghost from_gives = { λ verdict answer. answer ≡ answer_of (dispatcher_numbers verdict) };

    fn from(verdict: Result<Ending, Refusal>) -> Answer {
        match verdict {
            Ok(ending) => Answer {
                cause: 0,
                first: ending_number(ending) as usize,
                second: 0,
            },
            Err(refusal) => Answer::from(refusal),
        }
    }
}

// One size: of a text, or of rows.
impl From<Result<usize, Refusal>> for Answer {
    ghost from_gives = { λ size answer. answer ≡ size_answer size };

    fn from(size: Result<usize, Refusal>) -> Answer {
        match size {
            Ok(size) => Answer {
                cause: 0,
                first: size,
                second: 0,
            },
            Err(refusal) => Answer::from(refusal),
        }
    }
}

// Two sizes: of a header and of rows.
impl From<Result<(usize, usize), Refusal>> for Answer {
    ghost from_gives = { λ sizes answer. answer ≡ sizes_answer sizes };

    fn from(sizes: Result<(usize, usize), Refusal>) -> Answer {
        match sizes {
            Ok((header_words, row_words)) => Answer {
                cause: 0,
                first: header_words,
                second: row_words,
            },
            Err(refusal) => Answer::from(refusal),
        }
    }
}

impl From<Result<program_previews::PreviewAnswer, Refusal>> for PreviewAnswer {
    ghost from_gives = { λ verdict answer. answer ≡ preview_answer (run_numbers (told_run verdict)) (tally_of verdict) };

    fn from(verdict: Result<program_previews::PreviewAnswer, Refusal>) -> PreviewAnswer {
        match verdict {
            Ok(preview) => PreviewAnswer {
                cause: 0,
                first: ending_number(preview.ending) as usize,
                second: preview.count as usize,
                differing: preview.differing,
            },
            Err(refusal) => PreviewAnswer {
                cause: refusal.cause.number(),
                first: refusal.place,
                second: 0,
                differing: 0,
            },
        }
    }
}
