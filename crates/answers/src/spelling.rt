ghost use Rattle.std.specs.Prelude.{◌≡◌, ◌≤◌, length};
ghost use Rattle.answers.specs.Spelling.{text_of};
ghost use Rattle.answers.specs.Telling.{told, offers};
ghost use Rattle.refusals.specs.Numbers.{number};
ghost use Rattle.ledger.specs.Questions.{done, refused};

use crate::reply::Reply;
use inventory::Proposal;
use refusals::Refusal;
use texts::Text;

fn done_text() -> Text
    ensures { result ≡ text_of done }
{
    let mut text = Text::empty();
    text.put(b"(ok)\n");
    text
}

#[tactic(auto, using(crate::proofs::Lengths::lengths))]
fn fit_text(proposal: &Proposal) -> Text
    ensures text { result ≡ text_of (offers proposal.now) }
    ensures short { length result ≤ 64 }
{
    let mut text = Text::empty();
    text.put(b"(fit ");
    text.put_number(proposal.number());
    text.put(b" (to");
    text.put_pins(proposal.wiring().pins());
    text.put(b") (struck ");
    text.put_number(proposal.struck() as u32);
    text.put(b"))\n");
    text
}

#[tactic(auto, using(crate::proofs::Lengths::lengths))]
fn refusal_text(refusal: Refusal) -> Text
    ensures text { result ≡ text_of (refused (number refusal)) }
    ensures short { length result ≤ 64 }
{
    let mut text = Text::empty();
    text.put(b"(no ");
    text.put_number(u32::from(refusal.number()));
    text.put(b")\n");
    text
}

/// What a line is answered, with its newline. Memory of 64 bytes is always enough for it.
pub fn answer_text(answer: &Result<Reply, Refusal>) -> Text
    ensures text { result ≡ text_of (told answer.now) }
    ensures short { length result ≤ 64 }
{
    match answer {
        Ok(Reply::Done) => done_text(),
        Ok(Reply::Fit(proposal)) => fit_text(proposal),
        Err(refusal) => refusal_text(*refusal),
    }
}
