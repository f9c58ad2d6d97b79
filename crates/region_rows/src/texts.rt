//! The case texts of the rows.

/// A pipe of 7 reaches.
pub(crate) const SEVEN: &[u8] =
    b"surge 1\nstep 0.1\nsteps 6\nreservoir A 0 100\nreservoir B 0 100\npipe P A B 700 1 1000 0 0\n";

/// A short pipe of 2 reaches and a long one of 40 at a middle node.
pub(crate) const CHAIN: &[u8] =
    b"surge 1\nstep 0.1\nsteps 10\nreservoir A 0 100\njunction J 0 0 100\nreservoir B 0 100\npipe P A J 200 1 1000 0 0\npipe Q J B 4000 1 1000 0 0\n";

/// A pipe of 2 reaches, at whose valve the water parts.
pub(crate) const CAVITY: &[u8] =
    b"surge 1\nstep 0.1\nsteps 13\nopenings T 0 1 0.1 0\nreservoir A 0 20\ndischarge V 0 0.5 20 0 @T 20\npipe P A V 200 1 1000 0 0.5\nwatch V\nprobe P 1\n";
