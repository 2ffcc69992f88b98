//! Profiles and levels of H.264.

ghost use Rattle.std.specs.Prelude.{◌≡◌};
ghost use Rattle.std.specs.Option.{ok_or};
ghost use Rattle.std.specs.Cmp.{partial_order_from_own_ties};
ghost use Rattle.std.specs.Cmp.Rules.{comparing};
ghost use Rattle.std.specs.Ordering.{nat_cmp, on, is_eq, as_partial_cmp};
ghost use Rattle.std.proofs.Common.{rules, refl};

use std::cmp::Ordering;

/// A profile of H.264 (RFC 6184, section 8.1, table 5; Rec. ITU-T H.264, Annex A).
///
/// What `as` gives is its place in this list, from 0. No number in SDP names it: a profile_idc and
/// the flags behind it do.
#[derive(Debug, Clone, Copy, PartialEq, Eq, Hash)]
pub enum H264Profile {
    /// Baseline.
    Baseline,
    /// Constrained Baseline: what Baseline and Main have in common.
    ConstrainedBaseline,
    /// Main.
    Main,
    /// Extended.
    Extended,
    /// High.
    High,
    /// Constrained High: High without what needs several slices of a field or B slices.
    ConstrainedHigh,
    /// High 10.
    High10,
    /// High 4:2:2.
    High422,
    /// High 4:4:4 Predictive.
    High444Predictive,
    /// High 10 Intra.
    High10Intra,
    /// High 4:2:2 Intra.
    High422Intra,
    /// High 4:4:4 Intra.
    High444Intra,
    /// CAVLC 4:4:4 Intra.
    CAVLC444Intra,
}

/// A profile_idc of H.264 (Rec. ITU-T H.264, Annex A), named by its hexadecimal digits. What `as`
/// gives is the number.
#[derive(Debug, Clone, Copy, PartialEq, Eq, Hash)]
pub enum H264ProfileIdc {
    /// 44: CAVLC 4:4:4 Intra.
    X2C = 44,
    /// 66: Baseline.
    X42 = 66,
    /// 77: Main.
    X4D = 77,
    /// 88: Extended.
    X58 = 88,
    /// 100: High.
    X64 = 100,
    /// 110: High 10.
    X6E = 110,
    /// 122: High 4:2:2.
    X7A = 122,
    /// 244: High 4:4:4 Predictive.
    XF4 = 244,
}

/// The profile_idc with this number. The error says that none has it.
impl TryFrom<u8> for H264ProfileIdc {
    type Error = ();

    ghost use Rattle.h26x_profile.specs.H264.{idc_of};

    ghost try_from_gives = { λ number r. r ≡ ok_or (idc_of number) tt };

    fn try_from(value: u8) -> Result<Self, ()> {
        match value {
            44 => Ok(H264ProfileIdc::X2C),
            66 => Ok(H264ProfileIdc::X42),
            77 => Ok(H264ProfileIdc::X4D),
            88 => Ok(H264ProfileIdc::X58),
            100 => Ok(H264ProfileIdc::X64),
            110 => Ok(H264ProfileIdc::X6E),
            122 => Ok(H264ProfileIdc::X7A),
            244 => Ok(H264ProfileIdc::XF4),
            _ => Err(()),
        }
    }
}

/// The number.
impl From<H264ProfileIdc> for u8 {
    ghost use Rattle.h26x_profile.specs.H264.{idc_number};

    ghost from_gives = { λ it number. number ≡ idc_number it };

    fn from(idc: H264ProfileIdc) -> Self {
        idc as u8
    }
}

/// A level of H.264 (Rec. ITU-T H.264, Annex A). Levels are ordered by `ordinal`: level 1b is
/// between 1 and 1.1.
///
/// What `as` gives is the level_idc: ten times the level, and of level 1b 0, as str0m has it. A
/// `profile-level-id` names level 1b by 11 and a flag too, which [`H264ProfileLevel`] reads.
#[derive(Debug, Clone, Copy, PartialEq, Eq, Hash)]
pub enum H264LevelIdc {
    /// Level 1.
    Level1 = 10,
    /// Level 1b.
    Level1B = 0,
    /// Level 1.1.
    Level1_1 = 11,
    /// Level 1.2.
    Level1_2 = 12,
    /// Level 1.3.
    Level1_3 = 13,
    /// Level 2.
    Level2 = 20,
    /// Level 2.1.
    Level2_1 = 21,
    /// Level 2.2.
    Level2_2 = 22,
    /// Level 3.
    Level3 = 30,
    /// Level 3.1.
    Level3_1 = 31,
    /// Level 3.2.
    Level3_2 = 32,
    /// Level 4.
    Level4 = 40,
    /// Level 4.1.
    Level4_1 = 41,
    /// Level 4.2.
    Level4_2 = 42,
    /// Level 5.
    Level5 = 50,
    /// Level 5.1.
    Level5_1 = 51,
    /// Level 5.2.
    Level5_2 = 52,
}

impl H264LevelIdc {
    ghost use Rattle.h26x_profile.specs.H264.{ordinal};

    /// The level's place among all levels, from 0 (Rec. ITU-T H.264, Annex A).
    pub fn ordinal(self) -> usize
        ensures { result ≡ ordinal self }
    {
        match self {
            H264LevelIdc::Level1 => 0,
            H264LevelIdc::Level1B => 1,
            H264LevelIdc::Level1_1 => 2,
            H264LevelIdc::Level1_2 => 3,
            H264LevelIdc::Level1_3 => 4,
            H264LevelIdc::Level2 => 5,
            H264LevelIdc::Level2_1 => 6,
            H264LevelIdc::Level2_2 => 7,
            H264LevelIdc::Level3 => 8,
            H264LevelIdc::Level3_1 => 9,
            H264LevelIdc::Level3_2 => 10,
            H264LevelIdc::Level4 => 11,
            H264LevelIdc::Level4_1 => 12,
            H264LevelIdc::Level4_2 => 13,
            H264LevelIdc::Level5 => 14,
            H264LevelIdc::Level5_1 => 15,
            H264LevelIdc::Level5_2 => 16,
        }
    }
}

/// By `ordinal`.
impl Ord for H264LevelIdc {
    ghost use Rattle.h26x_profile.specs.H264.{ordinal};
    ghost use Rattle.h26x_profile.specs.OrderLaws.{same_test};

    ghost cmp = { on ordinal nat_cmp };

    ghost total = { Prim.search (comparing, rules) };

    ghost matches_partial_cmp = { λ _ _. refl };

    ghost matches_eq = { same_test _ (λ a b. is_eq (nat_cmp (ordinal a) (ordinal b))) refl };

    fn cmp(&self, other: &Self) -> Ordering {
        self.ordinal().cmp(&other.ordinal())
    }
}

/// By `ordinal`.
impl PartialOrd for H264LevelIdc {
    ghost use Rattle.h26x_profile.specs.H264.{ordinal};
    ghost use Rattle.h26x_profile.specs.OrderLaws.{same_test};

    ghost partial_cmp = { as_partial_cmp (on ordinal nat_cmp) };

    ghost laws = { partial_order_from_own_ties (Prim.search (comparing, rules))
        (same_test _ (λ a b. is_eq (nat_cmp (ordinal a) (ordinal b))) refl) };

    fn partial_cmp(&self, other: &Self) -> Option<Ordering> {
        Some(self.cmp(other))
    }
}

/// The level with this id. The error says that none has it.
impl TryFrom<u8> for H264LevelIdc {
    type Error = ();

    ghost use Rattle.h26x_profile.specs.H264.{level_of};

    ghost try_from_gives = { λ id r. r ≡ ok_or (level_of id) tt };

    fn try_from(value: u8) -> Result<Self, ()> {
        match value {
            10 => Ok(H264LevelIdc::Level1),
            0 => Ok(H264LevelIdc::Level1B),
            11 => Ok(H264LevelIdc::Level1_1),
            12 => Ok(H264LevelIdc::Level1_2),
            13 => Ok(H264LevelIdc::Level1_3),
            20 => Ok(H264LevelIdc::Level2),
            21 => Ok(H264LevelIdc::Level2_1),
            22 => Ok(H264LevelIdc::Level2_2),
            30 => Ok(H264LevelIdc::Level3),
            31 => Ok(H264LevelIdc::Level3_1),
            32 => Ok(H264LevelIdc::Level3_2),
            40 => Ok(H264LevelIdc::Level4),
            41 => Ok(H264LevelIdc::Level4_1),
            42 => Ok(H264LevelIdc::Level4_2),
            50 => Ok(H264LevelIdc::Level5),
            51 => Ok(H264LevelIdc::Level5_1),
            52 => Ok(H264LevelIdc::Level5_2),
            _ => Err(()),
        }
    }
}

/// The level_idc, and of level 1b 0.
impl From<H264LevelIdc> for u8 {
    ghost use Rattle.h26x_profile.specs.H264.{level_id};

    ghost from_gives = { λ it id. id ≡ level_id it };

    fn from(level: H264LevelIdc) -> Self {
        level as u8
    }
}
