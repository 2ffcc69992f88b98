//! The calls on RTCP: reports of a source (RFC 3550, 6.4.2), requests for keyframes (RFC 4585,
//! 6.3.1; RFC 5104, 4.3.1), and what is counted for the reports.

ghost use Rattle.std.specs.Prelude.{◌≡◌, Result, length, drop};
ghost use Rattle.h26x_rtp.specs.Feedback.{picture_loss_bytes, picture_loss_of, intra_request_bytes, intra_request_of, receiver_report_bytes, receiver_report_of};
ghost use Rattle.h26x_rtp.specs.Nack.{nack_of, IsNackWritten};
ghost use Rattle.h26x_rtp.specs.Rtcp.{first_rtcp};
ghost use Rattle.h26x_rtp.specs.Statistics.{is_counted, after_arrival, report_block, after_report, tally};
ghost use Rattle.h26x_rtp.specs.declared.error.RtpWriteError.{RtpWriteError};
ghost use Rattle.h26x_rtp.specs.declared.nack.NackWritten.{NackWritten};
ghost use Rattle.h26x_c.specs.Rtcp as spec;

use crate::rtp::written;
use h26x_codes::code::OK;
use h26x_rtp::{
    FullIntraRequest, GenericNack, PictureLoss, ReceiverReport, ReportBlock, RtpStatistics,
    split_rtcp, write_nack,
};

/// What is reported of a source (RFC 3550, 6.4.1).
#[repr(C)]
#[derive(Clone, Copy)]
pub struct Report {
    pub ssrc: u32,
    pub lost: i32,
    pub highest: u32,
    pub jitter: u32,
    pub last_sender_report: u32,
    pub delay: u32,
    pub fraction_lost: u8,
}

/// What is counted of a source (RFC 3550, 6.4.1, A.1, A.3 and A.8).
#[repr(C)]
#[derive(Clone, Copy)]
pub struct Statistics {
    pub expected: u64,
    pub received: u64,
    pub bytes: u64,
    pub recovered: u64,
    pub jitter: u64,
    pub expected_before: u64,
    pub received_before: u64,
    pub transit: u32,
    pub base: u16,
    pub highest: u16,
    pub after_jump: u16,
    pub has_transit: bool,
    pub has_jumped: bool,
}

/// A report block as C has it.
pub fn report_of(block: ReportBlock) -> Report
    ensures { result ≡ spec.report_of block }
{
    Report {
        ssrc: block.ssrc,
        lost: block.lost,
        highest: block.highest,
        jitter: block.jitter,
        last_sender_report: block.last_sender_report,
        delay: block.delay,
        fraction_lost: block.fraction_lost,
    }
}

/// A report block.
fn block_of(report: &Report) -> ReportBlock
    ensures { result ≡ spec.block_of report.now }
{
    ReportBlock {
        ssrc: report.ssrc,
        fraction_lost: report.fraction_lost,
        lost: report.lost,
        highest: report.highest,
        jitter: report.jitter,
        last_sender_report: report.last_sender_report,
        delay: report.delay,
    }
}

/// What was counted, by what C holds of it.
fn statistics_in(it: &Statistics) -> RtpStatistics
    ensures { result ≡ spec.statistics_in it.now }
{
    RtpStatistics {
        base: it.base,
        highest: it.highest,
        after_jump: if it.has_jumped {
            Some(it.after_jump)
        } else {
            None
        },
        expected: it.expected,
        received: it.received,
        bytes: it.bytes,
        recovered: it.recovered,
        transit: if it.has_transit {
            Some(it.transit)
        } else {
            None
        },
        jitter: it.jitter,
        expected_before: it.expected_before,
        received_before: it.received_before,
    }
}

/// What C holds of what was counted.
pub fn statistics_told(it: RtpStatistics) -> Statistics
    ensures { result ≡ spec.statistics_told it }
{
    Statistics {
        expected: it.expected,
        received: it.received,
        bytes: it.bytes,
        recovered: it.recovered,
        jitter: it.jitter,
        expected_before: it.expected_before,
        received_before: it.received_before,
        transit: it.transit.unwrap_or(0),
        base: it.base,
        highest: it.highest,
        after_jump: it.after_jump.unwrap_or(0),
        has_transit: it.transit.is_some(),
        has_jumped: it.after_jump.is_some(),
    }
}

/// Writes a picture loss indication (PLI).
#[unsafe(no_mangle)]
pub extern "C" fn h26x_pli_write(sender: u32, media: u32, to: &mut [u8], len: &mut usize) -> u32
    ensures { spec.IsWrittenAnswer (picture_loss_bytes (record { sender = sender; media = media }))
        to.old to.new len.old result len.new }
{
    written(PictureLoss { sender, media }.write(to), len)
}

/// Reads one, an RTCP packet alone.
#[unsafe(no_mangle)]
pub extern "C" fn h26x_pli_read(packet: &[u8], sender: &mut u32, media: &mut u32) -> bool
    ensures { (result, (sender.new, media.new))
        ≡ spec.picture_loss_answer (picture_loss_of packet.now) (sender.old, media.old) }
{
    match PictureLoss::read(packet) {
        Some(it) => {
            *sender = it.sender;
            *media = it.media;
            true
        }
        None => false,
    }
}

/// Writes a full intra request (FIR) of one source.
#[unsafe(no_mangle)]
pub extern "C" fn h26x_fir_write(
    sender: u32,
    media: u32,
    number: u8,
    to: &mut [u8],
    len: &mut usize,
) -> u32
    ensures { spec.IsWrittenAnswer (intra_request_bytes
        (record { sender = sender; media = media; number = number }))
        to.old to.new len.old result len.new }
{
    let request = FullIntraRequest {
        sender,
        media,
        number,
    };
    written(request.write(to), len)
}

/// Reads one of one source, an RTCP packet alone.
#[unsafe(no_mangle)]
pub extern "C" fn h26x_fir_read(
    packet: &[u8],
    sender: &mut u32,
    media: &mut u32,
    number: &mut u8,
) -> bool
    ensures { (result, (sender.new, (media.new, number.new))) ≡ spec.intra_request_answer
        (intra_request_of packet.now) (sender.old, (media.old, number.old)) }
{
    match FullIntraRequest::read(packet) {
        Some(it) => {
            *sender = it.sender;
            *media = it.media;
            *number = it.number;
            true
        }
        None => false,
    }
}

/// Writes a receiver report of one source.
#[unsafe(no_mangle)]
pub extern "C" fn h26x_receiver_report_write(
    sender: u32,
    report: &Report,
    to: &mut [u8],
    len: &mut usize,
) -> u32
    ensures { spec.IsWrittenAnswer (receiver_report_bytes
        (record { sender = sender; block = spec.block_of report.now }))
        to.old to.new len.old result len.new }
{
    let report = ReceiverReport {
        sender,
        block: block_of(report),
    };
    written(report.write(to), len)
}

/// Reads one of one source, an RTCP packet alone.
#[unsafe(no_mangle)]
pub extern "C" fn h26x_receiver_report_read(
    packet: &[u8],
    sender: &mut u32,
    report: &mut Report,
) -> bool
    ensures { (result, (sender.new, report.new)) ≡ spec.receiver_report_answer
        (receiver_report_of packet.now) (sender.old, report.old) }
{
    match ReceiverReport::read(packet) {
        Some(it) => {
            *sender = it.sender;
            *report = report_of(it.block);
            true
        }
        None => false,
    }
}

/// Writes a generic NACK, which asks for the first ones of sequence numbers, as many as have room.
#[unsafe(no_mangle)]
pub extern "C" fn h26x_nack_write(
    sender: u32,
    media: u32,
    numbers: &[u16],
    to: &mut [u8],
    len: &mut usize,
    count: &mut usize,
) -> u32
    ensures { (answer : Result NackWritten RtpWriteError)
        × IsNackWritten sender media numbers.now to.old to.new answer
        × ((result, (len.new, count.new))
        ≡ spec.nack_written_answer answer (len.old, count.old)) }
{
    match write_nack(sender, media, numbers, to) {
        Ok(it) => {
            *len = it.size;
            *count = it.count;
            OK
        }
        Err(error) => written(Err(error), len),
    }
}

/// Reads one, an RTCP packet alone: the first sequence numbers that it asks for, as many as there is
/// room for, and how many they all are.
#[unsafe(no_mangle)]
pub extern "C" fn h26x_nack_read(
    packet: &[u8],
    sender: &mut u32,
    media: &mut u32,
    numbers: &mut [u16],
    count: &mut usize,
) -> bool
    ensures { (
      result,
      record {
        sender = sender.new;
        media = media.new;
        numbers = numbers.new;
        count = count.new;
      },
    ) ≡ spec.nack_answer (nack_of packet.now) (record {
      sender = sender.old;
      media = media.old;
      numbers = numbers.old;
      count = count.old;
    }) }
{
    match GenericNack::read(packet) {
        Some(it) => {
            *sender = it.sender;
            *media = it.media;
            *count = it.pairs.copy_numbers(numbers);
            true
        }
        None => false,
    }
}

/// Where the next packet of a datagram of RTCP ends, from a place on; none begins behind the end.
#[unsafe(no_mangle)]
pub extern "C" fn h26x_rtcp_next(datagram: &[u8], from: usize, end: &mut usize) -> bool
    ensures { (result, end.new) ≡ spec.next_rtcp_answer (length datagram.now)
        (first_rtcp (drop from datagram.now)) end.old }
{
    if datagram.len() < from {
        return false;
    }
    match split_rtcp(&datagram[from..]) {
        Some((_, behind)) => {
            *end = datagram.len() - behind.len();
            true
        }
        None => false,
    }
}

/// Counts a packet that came; whether it counts.
#[unsafe(no_mangle)]
pub extern "C" fn h26x_rtp_statistics_receive(
    statistics: &mut Statistics,
    arrival: u32,
    sequence: u16,
    timestamp: u32,
    size: usize,
) -> bool
    ensures counted { result ≡ is_counted sequence (spec.statistics_in statistics.old) }
    ensures after { statistics.new ≡ spec.statistics_told
        (after_arrival arrival sequence timestamp size (spec.statistics_in statistics.old)) }
{
    let mut it = statistics_in(statistics);
    let counts = it.receive(arrival, sequence, timestamp, size);
    *statistics = statistics_told(it);
    counts
}

/// Counts a packet that came as a retransmission, or was restored.
#[unsafe(no_mangle)]
pub extern "C" fn h26x_rtp_statistics_recover(statistics: &mut Statistics)
    ensures { statistics.new
        ≡ record statistics.old { recovered = tally statistics.old.recovered 1 } }
{
    statistics.recovered = statistics.recovered.saturating_add(1);
}

/// What is reported of the source.
#[unsafe(no_mangle)]
pub extern "C" fn h26x_rtp_statistics_report(
    statistics: &mut Statistics,
    ssrc: u32,
    last_sender_report: u32,
    delay: u32,
    report: &mut Report,
)
    ensures report { report.new ≡ spec.report_of
        (report_block ssrc last_sender_report delay (spec.statistics_in statistics.old)) }
    ensures after { statistics.new
        ≡ spec.statistics_told (after_report (spec.statistics_in statistics.old)) }
{
    let mut it = statistics_in(statistics);
    *report = report_of(it.report(ssrc, last_sender_report, delay));
    *statistics = statistics_told(it);
}
