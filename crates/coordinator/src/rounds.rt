// How a place goes on to its next entry, or into another state.
ghost use Rattle.std.specs.Prelude.{◌≡◌};
ghost use Rattle.coordinator.specs.Calls.{left_after, moved_to, onward};

use crate::tables::Place;

impl Place {
    // The place in another state, with its cursor at the beginning.
    pub(crate) fn moved_to(self, state: u8) -> Place
        ensures { result ≡ moved_to state self }
    {
        Place {
            state,
            cursor: 0,
            ..self
        }
    }

    // The place with one entry more handled.
    pub(crate) fn onward(self) -> Place
        ensures { result ≡ onward self }
    {
        Place {
            cursor: self.cursor() + 1,
            ..self
        }
    }

    // How many entries are then left.
    pub(crate) fn left_after(self) -> u8
        ensures { result ≡ left_after self }
    {
        self.used().saturating_sub(self.cursor() + 1)
    }
}
