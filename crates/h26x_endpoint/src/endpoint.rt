//! What stands behind a handle.

use h26x_handles::access_units::AccessUnitEndpoint;
use h26x_handles::receiving::ReceivingEndpoint;
use h26x_handles::rtp_receiver::RtpReceiverEndpoint;
use h26x_handles::sending::SendingEndpoint;
use h26x_handles::sequenced::SequencedEndpoint;
use h26x_rtp_sender::RtpSender;
use h26x_sdp_handles::sdp::SdpEndpoint;

/// One endpoint of a stream.
#[derive(Drop)]
pub enum Endpoint {
    /// It sends.
    Sending(SendingEndpoint),
    /// It receives.
    Receiving(ReceivingEndpoint),
    /// It receives packets with their sequence numbers.
    Sequenced(SequencedEndpoint),
    /// It receives access units, of packets as a network brings them.
    AccessUnits(AccessUnitEndpoint),
    /// It receives access units, of datagrams as a socket brings them.
    RtpReceiver(RtpReceiverEndpoint),
    /// It sends access units, as datagrams.
    RtpSender(RtpSender),
    /// Format parameters of SDP.
    Sdp(SdpEndpoint),
}
