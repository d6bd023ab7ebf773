//! What a line of a declaration is there for.
ghost use Rattle.std.specs.Prelude.{◌≡◌, codes};
ghost use Rattle.std.specs.Str.{bytes_eq};
ghost use Rattle.function_lines.specs.KindLines.{word_of};
ghost use Rattle.declared_lines.specs.DeclaredLines.{key_word, is_rule, sets, can_decide};

use action_profile::Kind;
use packet_function::SettingKey;
use policy_text::Setting;

/// Is it a `rule` line?
pub fn is_rule(setting: &Setting) -> bool
    ensures { result ≡ is_rule setting.now }
{
    word_of(setting, 0) == b"rule".as_slice()
}

/// Is it a `set` line of this key?
pub fn sets(key: SettingKey, setting: &Setting) -> bool
    ensures { result ≡ sets key setting.now }
{
    word_of(setting, 0) == b"set".as_slice() && word_of(setting, 1) == key_word(key).as_bytes()
}

/// Can this `set` or `rule` line decide in a function of this kind?
pub fn can_decide(kind: Kind, setting: &Setting) -> bool
    ensures { result ≡ can_decide kind setting.now }
{
    match kind {
        Kind::Firewall => is_rule(setting) || sets(SettingKey::Default, setting),
        Kind::Nat => {
            sets(SettingKey::Inside, setting)
                || sets(SettingKey::Public, setting)
                || sets(SettingKey::Ports, setting)
        }
        Kind::Limiter => sets(SettingKey::Rate, setting),
        Kind::Signature
        | Kind::Balancer
        | Kind::Marker
        | Kind::Nexthop
        | Kind::Redactor
        | Kind::Tagger => is_rule(setting),
        Kind::Monitor | Kind::Hop | Kind::Untagger | Kind::Encap | Kind::Decap => false,
    }
}

fn key_word(key: SettingKey) -> &'static str
    ensures { result.now ≡ key_word key }
{
    match key {
        SettingKey::Default => "default",
        SettingKey::Inside => "inside",
        SettingKey::Public => "public",
        SettingKey::Ports => "ports",
        SettingKey::Rate => "rate",
    }
}

fn word_of(setting: &Setting, place: usize) -> &[u8]
    ensures { result.now ≡ word_of setting.now place }
{
    match setting.words.as_slice().get(place) {
        Some(word) => word.bytes(),
        None => &[],
    }
}
