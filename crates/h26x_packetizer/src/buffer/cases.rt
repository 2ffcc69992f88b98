//! Worked cases of packets in one buffer. Each is the contract of a function without a result.

ghost use Rattle.std.specs.Prelude.{◌≡◌, [], ◌∷◌};
ghost use Rattle.h26x_packetizer.specs.Buffer.{buffer_of, headed_at, packets_len, with_packets};

/// Two packets behind headrooms of two bytes, those once a header of one byte stands before the
/// second, and a packet that is appended.
pub fn packets_behind_headrooms()
    ensures held { buffer_of 2 (1 ∷ 2 ∷ 0x41 ∷ 3 ∷ 4 ∷ 0x42 ∷ 0x43 ∷ []) (3 ∷ 7 ∷ [])
        (record { bytes = 7; ends = 8 }) ≡ record {
          packets = (0x41 ∷ []) ∷ (0x42 ∷ 0x43 ∷ []) ∷ [];
          headrooms = (1 ∷ 2 ∷ []) ∷ (3 ∷ 4 ∷ []) ∷ [];
          headroom = 2;
          memory = record { bytes = 7; ends = 8 };
        } }
    ensures headed { headed_at 1 (9 ∷ []) ((1 ∷ 2 ∷ []) ∷ (3 ∷ 4 ∷ []) ∷ [])
        ≡ (1 ∷ 2 ∷ []) ∷ (3 ∷ 9 ∷ []) ∷ [] }
    ensures appended { with_packets (buffer_of 2 [] [] (record { bytes = 0; ends = 0 }))
        ((0x41 ∷ []) ∷ []) (record { bytes = 3; ends = 8 }) ≡ record {
          packets = (0x41 ∷ []) ∷ [];
          headrooms = (0 ∷ 0 ∷ []) ∷ [];
          headroom = 2;
          memory = record { bytes = 3; ends = 8 };
        } }
    ensures len { packets_len 2 ((0x41 ∷ []) ∷ (0x42 ∷ 0x43 ∷ []) ∷ []) ≡ 7 }
{}
