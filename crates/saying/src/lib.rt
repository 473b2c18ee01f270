// What the program says for a question about the bytes on its standard input.
#![tactic(auto)]

ghost use Rattle.saying.specs.Said.{SaidFor};

use text::Text;
use words::Question;

// The text for a question: the answer, or the line of its refusal; for words that ask nothing, what can be asked.
pub fn say(q: Question, s: &[u8]) -> Text
    ensures { SaidFor q s.now result }
{
    match q {
        Question::Fold => folds::text_of(s),
        Question::Boards(p) => says::truth_text(questions::boards_fit(s, p)),
        Question::Values(p) => says::truth_text(questions::values_arrive(s, p)),
        Question::Margin(i, j, n, p) => says::measured_text(margins::margin(s, i, j, n, p)),
        Question::Unfold => start_lines::starts_text(s),
        Question::Gap => says::gap_text(questions::gap_of(s)),
        Question::Nothing => says::askable_text(),
    }
}
