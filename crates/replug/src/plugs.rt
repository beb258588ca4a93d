// Going through all lists of sockets, among which are all plug orders.
ghost use Rattle.replug.specs.Lists.{Advances};

// Goes on to the next list of as many sockets as heads, the last place fastest; false, and the first list, after the last.
// In place and with a `bool`: an iterator of lists would hand on arrays with the number of heads beside them.
pub(crate) fn advance(plugs: &mut [usize]) -> bool
    ensures { Advances plugs.old result plugs.new }
{
    let last = plugs.len().saturating_sub(1);
    let Some(place) = plugs.iter().rposition(|plug| *plug < last) else {
        plugs.fill(0);
        return false;
    };
    plugs[place] += 1;
    plugs[place + 1..].fill(0);
    true
}
