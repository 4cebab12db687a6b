// Index words written to the front of a lent part.
ghost use Rattle.std.specs.Prelude.{◌≤◌, drop, length, ◌∷◌, ◌≡◌};

// One node's five words.
pub fn put_node(part: &mut [u32], start: u32, count: u32, child: u32, radius: u32, inner: u32)
    requires { 5 ≤ length part.old }
    ensures { part.new ≡ start ∷ count ∷ child ∷ radius ∷ inner ∷ drop 5 part.old }
{
    part[0] = start;
    part[1] = count;
    part[2] = child;
    part[3] = radius;
    part[4] = inner;
}
