// Tests of reading and writing: tables of files, files of edge sizes, and a file that a design tool wrote.
#![tactic(auto)]

#[cfg(test)]
mod cases;

#[cfg(test)]
mod tests {
    use super::cases::*;
    use aiger::{MAX_FILE, read, write};
    use circuit::{Gate, Model, Record, Side};
    use std::alloc::{AllocError, Global};
    use std::process::Abort;
    use std::test::Fail;

    // The number and the line of a file's refusal over a table of two places.
    fn refusal(file: &[u8]) -> Option<(u8, u32)> {
        let mut gates = [Gate::BLANK; 2];
        let fault = read(file, &mut gates, &mut Record::blank()).err()?;
        Some((fault.number(), fault.line()))
    }

    fn refuses(rt: &impl Abort, cases: &[Case]) {
        for case in cases {
            assert_eq!(rt; refusal(case.file), Some((case.number, case.line)));
        }
    }

    #[test]
    fn accepts(rt: HostRuntime) {
        for file in ACCEPTED {
            assert_eq!(rt; refusal(file), None);
        }
    }

    #[test]
    fn refuses_headers(rt: HostRuntime) {
        refuses(&rt, &HEADERS);
    }

    #[test]
    fn refuses_lines(rt: HostRuntime) {
        refuses(&rt, &LINES);
    }

    #[test]
    fn refuses_literals(rt: HostRuntime) {
        refuses(&rt, &LITERALS);
    }

    #[test]
    fn refuses_symbols(rt: HostRuntime) {
        refuses(&rt, &SYMBOLS);
    }

    // A model with a comment of `x`s that brings the file to that many bytes.
    fn padded(heap: Global, size: usize) -> Result<Vec<u8>, AllocError> {
        let mut file = Vec::from_slice(heap, b"aag 0 0 0 1 0\n0\nc\n")?;
        file.resize(size, b'x')?;
        Ok(file)
    }

    #[test]
    fn file_sizes(rt: HostRuntime) -> Result<(), Fail> {
        let full = padded(rt.alloc(), MAX_FILE)?;
        assert_eq!(rt; full.len(), 65536);
        assert_eq!(rt; refusal(full.as_slice()), None);
        let over = padded(rt.alloc(), MAX_FILE + 1)?;
        assert_eq!(rt; refusal(over.as_slice()), Some((1, 0)));
        Ok(())
    }

    #[test]
    fn tool_file(rt: HostRuntime) -> Result<(), Fail> {
        let mut gates = [Gate::BLANK; 8];
        let mut record = Record::blank();
        read(TOOL, &mut gates, &mut record)?;
        assert_eq!(rt; record.maximum, 16);
        assert_eq!(rt;
            (record.input_count, record.latch_count, record.gate_count),
            (7, 2, 7)
        );
        assert_eq!(rt; record.inputs[4].side, Side::Event);
        assert_eq!(rt; record.inputs[5].side, Side::Answer);
        assert_eq!(rt; record.inputs[6].side, Side::Answer);
        let model = Model::join(&record, &gates);
        let mut buffer = [0u8; 512];
        let length = write(&model, &mut buffer)?;
        assert_eq!(rt; buffer.get(0..length), Some(TOOL_WRITTEN));
        Ok(())
    }

    #[test]
    fn short_buffer(rt: HostRuntime) -> Result<(), Fail> {
        let mut gates = [Gate::BLANK; 1];
        let mut record = Record::blank();
        read(b"aag 0 0 0 1 0\n1\n", &mut gates, &mut record)?;
        let model = Model::join(&record, &gates);
        let mut exact = [7u8; 17];
        assert_eq!(rt; write(&model, &mut exact)?, 16);
        assert_eq!(rt; &exact[0..17], b"aag 0 0 0 1 0\n1\n\x07".as_slice());
        let mut short = [7u8; 15];
        assert_eq!(rt;
            write(&model, &mut short).map_err(|fault| fault.number()),
            Err(11)
        );
        assert_eq!(rt; short, [7u8; 15]);
        Ok(())
    }
}
