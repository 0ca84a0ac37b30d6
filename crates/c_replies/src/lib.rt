// The answers of calls written as numbers at the front of a buffer.
#![tactic(auto)]

ghost use Rattle.std.specs.Prelude.{◌≤◌, length};
ghost use Rattle.index_plan.specs.Answers.{plan_by};
ghost use Rattle.index_calls.specs.Answers.{built_by};
ghost use Rattle.map_answers.specs.Answer.{answer_by};
ghost use Rattle.batch_rows.specs.Rows.{row_numbers};
ghost use Rattle.c_replies.specs.Replies.{plan_numbers, build_numbers, Put};

use batch_rows::write_row;
use index_plan::Counts;
use map_answers::answer::Mapping;
use promises::refusal::Numbered;

// Writes the answer of a plan, and returns its refusal.
pub fn put_plan<E: Numbered>(answer: &mut [u64], planned: Result<Counts, E>) -> u64
    requires { 3 ≤ length answer.old }
    ensures { Put plan_numbers (plan_by E.its_number planned) result answer.old answer.new }
{
    match planned {
        Err(refusal) => {
            let number = refusal.number();
            answer[0] = number;
            answer[1] = 0;
            answer[2] = 0;
            number
        }
        Ok(counts) => {
            answer[0] = 0;
            answer[1] = counts.targets as u64;
            answer[2] = counts.postings as u64;
            0
        }
    }
}

// Writes the answer of a build, and returns its refusal.
pub fn put_built<E: Numbered>(answer: &mut [u64], built: Result<usize, E>) -> u64
    requires { 2 ≤ length answer.old }
    ensures { Put build_numbers (built_by E.its_number built) result answer.old answer.new }
{
    match built {
        Err(refusal) => {
            let refusal = refusal.number();
            answer[0] = refusal;
            answer[1] = 0;
            refusal
        }
        Ok(n) => {
            answer[0] = 0;
            answer[1] = n as u64;
            0
        }
    }
}

// Writes the answer of `map`, and returns its refusal.
pub fn put_answer<E: Numbered>(answer: &mut [u64], mapped: Result<Mapping, E>) -> u64
    requires { 8 ≤ length answer.old }
    ensures { Put row_numbers (answer_by E.its_number mapped) result answer.old answer.new }
{
    write_row(answer, 0, mapped);
    answer[0]
}
