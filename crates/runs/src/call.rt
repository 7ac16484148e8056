use crate::question::Question;

/// What is asked of a shelf: to enter or to drop a part, or a question.
#[derive_where(Clone, Copy)]
pub enum Call<'a, R, P> {
    Enter {
        number: u32,
        inputs: usize,
        rows: &'a [R],
    },
    Drop {
        number: u32,
    },
    Ask(Question<'a, R, P>),
}
