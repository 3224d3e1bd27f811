// What is printed for a text, at the start of `output`; the answer is how many bytes it is.
ghost use Rattle.std.specs.Prelude.{◌≤◌, length};
ghost use Rattle.text_numbers.specs.Writer.{Put};
ghost use Rattle.trial.specs.Output.{trial_output};
ghost use Rattle.trial.specs.Conditions.{trial_room};

use super::runs::run_source;
use text_report::line::refused_line;
use text_rules::rule::read_rule;

// Document 01, the end of "Text": the rule is read and checked, then both forms run.
pub fn trial(text: &[u8], output: &mut [u8]) -> usize
    requires { trial_room ≤ length output.old }
    ensures { Put (trial_output text.now) output.old result output.new }
{
    let mut header = [0i32; 35];
    let mut rows = [0i32; 768];
    let answer = read_rule(text, &mut header, &mut rows);
    match answer {
        Ok((header_words, row_words)) => run_source(
            &header[0..header_words],
            &rows[0..row_words],
            output,
        ),
        Err(refusal) => refused_line(refusal, output),
    }
}
