//! How a step accesses a place: a word of memory together with the count of pending outputs that have a byte of it,
//! or anything else that has one value.

ghost use Rattle.std.specs.Prelude.{◌≡◌, ◌↔◌, IsTrue};
ghost use Rattle.tclocks.specs.Modes as spec;

/// How a step accesses a place.
#[derive(Clone, Copy, Debug)]
pub enum Mode {
    /// It looks at the value.
    Looks,
    /// It looks at the pending outputs.
    Checks,
    /// It looks at the value and at the pending outputs.
    Claims,
    /// It puts a value there, with both looks.
    Puts,
    /// It adds a number to the pending outputs, without a look at them.
    Lends,
    /// It changes the value by a change of this kind: two changes of one kind commute.
    Commutes(u8),
}

impl Mode {
    /// Whether the order of an access of this mode and of one of the other mode matters.
    #[inline]
    pub fn collides_with(self, other: Mode) -> bool
        ensures { result ≡ spec.collide self other }
    {
        match (self, other) {
            (Mode::Looks, Mode::Looks | Mode::Claims | Mode::Lends) => false,
            (Mode::Claims, Mode::Looks | Mode::Claims) => false,
            (Mode::Lends, Mode::Looks | Mode::Lends) => false,
            (Mode::Checks, Mode::Looks | Mode::Checks | Mode::Claims | Mode::Commutes(_)) => false,
            (Mode::Looks | Mode::Claims | Mode::Commutes(_), Mode::Checks) => false,
            (Mode::Commutes(kind), Mode::Commutes(other)) => kind != other,
            _ => true,
        }
    }

    /// Whether all that collides with an access of the other mode collides with one of this mode.
    #[inline]
    pub fn covers(self, other: Mode) -> bool
        ensures { result ≡ spec.covers self other }
    {
        match (self, other) {
            (Mode::Puts, _) | (Mode::Claims | Mode::Lends, Mode::Looks) => true,
            (Mode::Claims | Mode::Checks | Mode::Commutes(_), Mode::Checks) => true,
            (Mode::Looks, Mode::Looks)
            | (Mode::Claims, Mode::Claims)
            | (Mode::Lends, Mode::Lends) => true,
            (Mode::Commutes(kind), Mode::Commutes(other)) => kind == other,
            _ => false,
        }
    }

    /// Whether this is the other mode.
    #[inline]
    pub fn is(self, other: Mode) -> bool
        ensures { IsTrue result ↔ (self ≡ other) }
    {
        match (self, other) {
            (Mode::Looks, Mode::Looks)
            | (Mode::Checks, Mode::Checks)
            | (Mode::Claims, Mode::Claims)
            | (Mode::Puts, Mode::Puts)
            | (Mode::Lends, Mode::Lends) => true,
            (Mode::Commutes(kind), Mode::Commutes(other)) => kind == other,
            _ => false,
        }
    }
}
