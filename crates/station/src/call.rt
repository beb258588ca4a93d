// A call of a station, as a value, so that lists of calls can be recorded and made again.
#[derive(Clone, Copy)]
pub enum Call<'f, R> {
    // feed this frame
    Feed(&'f [R]),
    Gap,
    // look at the signature in this position
    Look(usize),
    // look back by q frames at a head
    LookBack { q: usize, head: usize },
    // recheck the signature in this position
    Recheck(usize),
}
