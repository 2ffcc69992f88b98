//! Report blocks of RTCP (RFC 3550, 6.4.1).

/// What a receiver reports of a source (RFC 3550, 6.4.1).
#[derive(Debug, Clone, Copy, PartialEq, Eq)]
pub struct ReportBlock {
    /// The source.
    pub ssrc: u32,
    /// The part of packets that was lost since the last report, in 256ths.
    pub fraction_lost: u8,
    /// How many packets were lost, below zero where more came than were expected: -2^23 to 2^23 - 1.
    pub lost: i32,
    /// The highest number that came, extended by how often numbers went round.
    pub highest: u32,
    /// The interarrival jitter, in ticks of the timestamps' clock.
    pub jitter: u32,
    /// The middle 32 bits of the NTP timestamp of the last sender report; 0 where none came.
    pub last_sender_report: u32,
    /// How long ago that came, in 65536ths of a second; 0 where none came.
    pub delay: u32,
}
