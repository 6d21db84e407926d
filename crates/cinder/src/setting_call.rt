// Looking up a setting for C: numbers and byte areas only.
ghost use Rattle.std.specs.Prelude.{◌≡◌};
ghost use Rattle.setting.specs.Lookup.{numbers_in};
ghost use Rattle.cinder.specs.SettingCall.{setting_result, setting_call};

use setting::{Located, Owner, Refused};

// The number of the error, 0 for none, and the list, 1 for the guest's and 2 for the house's; there the offset and the length
// of the value, or the offset of the fault and how many lists are open at it.
#[repr(C)]
#[derive(Drop)]
pub struct SettingResult {
    pub error: u64,
    pub list: u64,
    pub offset: u64,
    pub length: u64,
    pub depth: u64,
}

impl From<Result<Located, Refused>> for SettingResult {
    ghost from_gives = { λ answer r. r ≡ setting_result (numbers_in answer) };

    fn from(answer: Result<Located, Refused>) -> SettingResult {
        match answer {
            Ok(value) => SettingResult {
                error: 0,
                list: value.list.number() as u64,
                offset: value.offset as u64,
                length: value.length as u64,
                depth: 0,
            },
            Err(refused) => SettingResult {
                error: refused.error.number() as u64,
                list: refused.list.map_or(0, Owner::number) as u64,
                offset: refused.offset as u64,
                length: 0,
                depth: refused.depth as u64,
            },
        }
    }
}

// The value of a key in the guest's settings list, else in the house's. Nothing is written.
#[unsafe(no_mangle)]
pub extern "C" fn cinder_setting_find(guest: &[u8], house: &[u8], key: &[u8]) -> SettingResult
    ensures { result ≡ setting_call guest.now house.now key.now }
{
    SettingResult::from(setting::locate(guest, house, key))
}
