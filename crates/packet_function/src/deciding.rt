//! Which lines of its declaration decide what a function does to a packet.

/// A line of a function's declaration, by its role there.
#[derive(Clone, Copy, Debug)]
pub enum DecidingLine {
    /// The `rule` line at this place among the `rule` lines of the declaration, counted from 0.
    Rule(usize),
    /// The `set` line of this key, or the `fn` line if the declaration has none.
    Set(SettingKey),
    /// The `fn` line.
    Declaration,
}

/// The key of a `set` line that can decide.
#[derive(Clone, Copy, Debug)]
pub enum SettingKey {
    /// `set default`, of a firewall.
    Default,
    /// `set inside`, of a nat.
    Inside,
    /// `set public`, of a nat.
    Public,
    /// `set ports`, of a nat.
    Ports,
    /// `set rate`, of a limiter.
    Rate,
}
