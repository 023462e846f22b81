// The last eight settings saved, read by age.
ghost use Rattle.std.specs.Prelude.{◌≡◌};
ghost use Rattle.refusals.specs.Refusal.{answer_as};
ghost use Rattle.settings.specs.Refused.{FifteenIs};
ghost use Rattle.settings.specs.Store.{nothing, save, read_at};

use crate::setting::{Setting, good_length, setting_in};
use fixed_list::FixedList;
use refusals::Refusal;
use std::marker::Model;

// The newest first.
#[derive(Clone, Copy)]
pub struct SettingStore {
    kept: FixedList<Setting, 8>,
}

impl Model for SettingStore {
    ghost use Rattle.std.specs.Prelude.{List};
    ghost use Rattle.settings.specs.declared.setting.Setting.{Setting};

    ghost Value = { List Setting };

    ghost view = { λ s. s.kept.items };

    ghost inverse = { λ l. record { kept = record { items = l } } };
}

impl SettingStore {
    pub fn new() -> SettingStore
        ensures { result ≡ nothing }
    {
        SettingStore {
            kept: FixedList::new(),
        }
    }

    // Keeps the values of packed bytes as the newest; of nine the oldest goes.
    pub fn save(&mut self, bytes: &[u8]) -> Result<(), Refusal>
        ensures is { (answer_as result, self.new) ≡ save bytes.now self.old }
        ensures why { FifteenIs Refusal.BadLength result }
    {
        let [first, ..] = bytes else {
            return Err(Refusal::BadLength);
        };
        let version = first / 16;
        if !(1..=7).contains(&version) {
            return Err(Refusal::BadVersion);
        }
        if !good_length(version, bytes.len()) {
            return Err(Refusal::BadLength);
        }
        self.kept.truncate(7);
        self.kept.insert(0, setting_in(bytes, version));
        Ok(())
    }

    // The values of an age, 0 the newest.
    pub fn read(&self, age: usize) -> Result<Setting, Refusal>
        ensures is { answer_as result ≡ read_at age self.now }
        ensures why { FifteenIs Refusal.NotStored result }
    {
        self.kept.get(age).copied().ok_or(Refusal::NotStored)
    }
}
