// Digests of towers.
ghost use Rattle.std.specs.Prelude.{◌≡◌, ℕ, List, [], ◌∷◌};
ghost use Rattle.model.specs.Lists.{joined};
ghost use Rattle.model.specs.Tower.{section_of, tower_of};
ghost use Rattle.lines.specs.Digest.{start, digest};
ghost use Rattle.file_cases.specs.Digest.{group_values, section_values, item_values, tower_values};

use lines::digest::{START, mix};
use model::{Group, Item, Section, Tower};

// What a digest is of as numbers.
trait Values {
    ghost values: { Self → List ℕ };

    // The digest d with these numbers more.
    fn mix_into(&self, d: u64) -> u64
        ensures { result ≡ digest d (values self.now) };
}

fn mix_each<T: Values>(d: u64, parts: &[T]) -> u64
    ensures { result ≡ digest d (joined T.values parts.now) }
{
    let mut d = d;
    for part in parts {
        d = part.mix_into(d);
    }
    d
}

impl Values for u64 {
    ghost values = { λ number. number ∷ [] };

    #[tactic(auto, unfolding(lines::specs::Digest::digest))]
    fn mix_into(&self, d: u64) -> u64 {
        mix(d, *self)
    }
}

impl Values for Group {
    ghost values = { group_values };

    #[tactic(auto, unfolding(model::specs::Lists::joined))]
    fn mix_into(&self, d: u64) -> u64 {
        let kind = u64::from(self.member.kind());
        let size = u64::from(self.member.size().0);
        let length = u64::from(self.length.0);
        mix_each(d, &[kind, size, length])
    }
}

impl Values for Section {
    ghost values = { λ section. section_values (section_of section) };

    #[tactic(auto, unfolding(model::specs::Lists::joined, lines::specs::Digest::digest))]
    fn mix_into(&self, d: u64) -> u64 {
        let d = mix_each(
            d,
            &[
                u64::from(self.width.0),
                u64::from(self.height.0),
                self.allowance.0,
                self.groups.len() as u64,
            ],
        );
        mix_each(d, &self.groups)
    }
}

impl Values for Item {
    ghost values = { item_values };

    #[tactic(auto, unfolding(model::specs::Lists::joined))]
    fn mix_into(&self, d: u64) -> u64 {
        mix_each(
            d,
            &[
                u64::from(self.number),
                u64::from(self.section),
                u64::from(self.width.0),
                u64::from(self.length.0),
                u64::from(self.bare),
                u64::from(self.iced),
                u64::from(self.position),
            ],
        )
    }
}

pub(crate) fn tower_digest(tower: &Tower) -> u64
    ensures { result ≡ digest start (tower_values (tower_of tower.now)) }
{
    let d = mix_each(START, &[u64::from(tower.legs), tower.sections.len() as u64]);
    let d = mix_each(d, &tower.sections);
    let d = mix(d, tower.items.len() as u64);
    mix_each(d, &tower.items)
}
