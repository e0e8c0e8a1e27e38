// What a list starts from: a tower, its items, and a wind.
use draws::keys::Key;
use draws::towers::{bare_file, sound_item};
use model::{Item, Wind};
use service::changes::{erect, fresh, hang, set_wind};
use slots::{EMPTY, State};

// What the tower and its items are drawn from.
#[derive(Clone, Copy, Debug, PartialEq, Eq)]
pub(crate) struct Site {
    pub key: Key,
    pub sections: u64,
}

impl Site {
    // The item of this number, the same each time.
    pub(crate) fn item(self, number: u16) -> Item {
        let key = self.key.part(1).part(u64::from(number));
        sound_item(key, number, self.sections)
    }

    // A fresh service with the tower and so many of its items, hung in rising order, and no wind yet.
    pub(crate) fn raised(self, items: u16) -> State {
        let mut state = EMPTY;
        fresh(&mut state);
        let _ = erect(&mut state, &bare_file(self.key, self.sections).bytes);
        for number in 0..items {
            let _ = hang(&mut state, self.item(number));
        }
        state
    }
}

// Sets the wind, the same each time but for its pressures.
pub(crate) fn blow(state: &mut State, pressures: &[u16]) {
    let wind = Wind {
        direction: 4,
        ice: 0,
        factor: 1000,
        pressures,
    };
    let _ = set_wind(state, wind);
}
