// What is read of a sheet.
ghost use Rattle.std.specs.Prelude.{◌≡◌, IfOk, IfSome};

use std::alloc::Global;
use std::io;
use std::io::Read;

// All that is left to read.
pub fn read_all<R: Read + Drop>(heap: Global, mut reader: R) -> io::Result<Vec<u8>>
    ensures { IfOk result (λ v. IfSome (R.remaining reader) (λ bytes. v.items ≡ bytes)) }
{
    let mut bytes = Vec::new(heap);
    reader.read_to_end(&mut bytes)?;
    Ok(bytes)
}

#[cfg(test)]
mod tests {
    use super::read_all;

    #[test]
    fn reads_all(rt: HostRuntime) {
        match read_all(rt.alloc(), &b"sheet"[..]) {
            Ok(bytes) => assert!(rt; bytes.as_slice() == b"sheet".as_slice()),
            Err(_) => assert!(rt; false),
        }
    }
}
