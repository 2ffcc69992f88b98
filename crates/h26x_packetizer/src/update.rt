//! What a call changes of a packetizer.

ghost use Rattle.std.specs.Prelude.{◌≡◌, None, false};

/// What a call changes of a packetizer once it is carried out: the sets that wait, and the next
/// number.
#[derive(Drop)]
pub struct Update {
    /// Whether the sets from before were sent.
    pub are_sent: bool,
    /// The sets since.
    pub vps: Option<Vec<u8>>,
    pub sps: Option<Vec<u8>>,
    pub pps: Option<Vec<u8>>,
    pub next_don: u16,
}

impl Update {
    /// The next number alone changes.
    pub fn number(next_don: u16) -> Update
        ensures { result ≡ record {
          are_sent = false;
          vps = None;
          sps = None;
          pps = None;
          next_don = next_don;
        } }
    {
        Update {
            are_sent: false,
            vps: None,
            sps: None,
            pps: None,
            next_don,
        }
    }
}
