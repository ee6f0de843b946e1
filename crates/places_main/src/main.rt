// A caller of the places: shows that what each change requires can be met, and that the answers are as the lists say.
#![tactic(auto)]

ghost use Rattle.std.specs.Prelude.{◌≡◌, length};

use check::expect;

// A node of four is drawn, present, pending, retired, taken from the ring, released, and drawn again.
fn life(rows: &mut [u32])
    requires { length rows.old ≡ 192 }
{
    places::clear_places(rows, 4);
    let drawn = places::draw(rows, 4);
    places::make_present(rows, 4, drawn);
    let present = places::present_count(rows, 4);
    places::make_pending(rows, 4, drawn);
    places::retire(rows, 4, drawn);
    let taken = places::take_front(rows, 4);
    places::release(rows, 4, taken);
    let free = places::free_count(rows, 4);
    let again = places::draw(rows, 4);
    expect(drawn == 0);
    expect(present == 1);
    expect(taken == 0);
    expect(free == 4);
    expect(again == 0);
    expect(places::places_ok(rows, 4));
    expect(places::counted_ok(rows, 4));
}

fn main() {
    let mut rows = [7u32; 192];
    life(&mut rows);
}
