// Bytes in print.
use label::label::Label;
use std::io;

// A title, and bytes in hexadecimal with a space before each.
pub fn tell_bytes(rt: &HostRuntime, title: &str, bytes: &[u8]) -> io::Result<()> {
    rt.print(title)?;
    for b in bytes {
        print!(rt; " {b:02x}")?;
    }
    rt.println("")
}

// The uuid of a label.
pub fn tell_uuid(rt: &HostRuntime, label: &Label) -> io::Result<()> {
    tell_bytes(rt, "  uuid", &label.uuid)
}
