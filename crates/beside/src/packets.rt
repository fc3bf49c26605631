// Query 8: the classifier for C, `threadwicket_classify_raw`. After `room` come an endpoint (family, address 16, port) and a packet. What is
// lent is the reading: the number of extension headers passed (u64).
use crate::parts;
use crate::query::QueryError;

// The call, on the endpoint and the packet.
pub(crate) fn classify(body: &[u8], reading: &mut [u8]) -> Result<u32, QueryError> {
    let (endpoint, packet) = parts::split_array::<19>(body)?;
    let address = octets::array_at::<16>(endpoint, 1);
    let number = export::threadwicket_classify_raw(
        packet,
        octets::get_u8(endpoint, 0),
        &address,
        octets::get_le::<u16>(endpoint, 17),
        reading,
    );
    Ok(number)
}
