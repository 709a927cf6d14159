// The guard of a table of links: whichever way the function that holds it ends, each link holds its own number again.
ghost use Rattle.std.specs.Prelude.{◌≡◌, ◌≤◌, length};
ghost use Rattle.std.specs.List.{range_with_len};

use records::own_numbers;

// Lent links, which are put back when the guard goes. A function makes it as `Links(links)` over its slice parameter, and lends
// `guard.0` to one function that does the work.
pub struct Links<'a>(pub &'a mut [u16]);

impl Drop for Links<'_> {
    fn drop(self)
        requires { length self.0.now ≤ 65536 }
        ensures { self.exit.0.now ≡ range_with_len 0 (length self.entry.0.now) }
    {
        own_numbers(self.0);
        let Links(_) = self;
    }
}
