use super::*;
use drm_shape::Shape;
use drm_talk::{Act, Answer, Element, Reply};
use std::alloc::Global;
use std::test::Fail;

/// Logs of an arm of one joint.
const LOGS: [&[u8]; 12] = [
    b"",
    b"0 count node 0\n0 put 5 box 140 140 150 150\n0 count edge 0\n0 count node 0\n0 del 5\n0 del 5\n",
    b"0 put 3 box 140 140 150 150\n0 put 3 box 140 -150 150 -140\n0 count edge 0\n0 count edge 1\n",
    b"0 put 0 box 0 0 0 0\n0 count node 0\n",
    b"0 put 65535 box -65536 -65536 65536 65536\n0 count edge 4294967295\n",
    b"0 put 0 disc 60000 0 5\n0 count edge 0\n",
    b"7 put 1 disc -65536 65536 65536\n7 put 2 disc 0 0 0\n",
    b"1 put 1 poly 0 0 10 0 0 10\n1 put 2 poly 500 0 560 0 530 50\n",
    b"2 put 1 poly 3 0 2 2 0 3 -2 2 -3 0 -2 -2 0 -3 2 -2\n",
    b"0 ask 3000 0\n0 ask -2147483648 2147483647\n",
    b"0 ask 0 1024\n1 put 7 box 140 140 150 150\n1 sync\n1 ask 0 1024\n",
    b"4 tick\n4 count edge 0\n6 tick\n",
];

/// Logs whose first line is bad.
const BAD_FIRST_LINES: [&[u8]; 46] = [
    b"0 put 1 box 5 0 4 1\n",
    b"0 put 1 box 0 0 65537 1\n",
    b"00 del 1\n",
    b"00 sync\n",
    b"8 sync\n",
    b"0 ask 0\n",
    b"0 ask 0 0 0\n",
    b"0 sync",
    b"0 del 01\n",
    b"0 del +1\n",
    b"0 del -1\n",
    b"0 del\n",
    b"0 del \n",
    b"0  del 1\n",
    b" 0 del 1\n",
    b"0 del 1 \n",
    b"0 del\t1\n",
    b"0 del 1\r\n",
    b"0 del 1",
    b"\n",
    b"0 put 1 box -0 0 1 1\n",
    b"0 put 1 box 0 0 1\n1\n",
    b"0 put 65536 box 0 0 1 1\n",
    b"0 del 65536\n",
    b"0 count node 4294967296\n",
    b"0 count node 99999999999999999999\n",
    b"0 count cell 0\n",
    b"0 sync 0\n",
    b"0 tick tick\n",
    b"0 ticks\n",
    b"-1 tick\n",
    b"0 ask 0 2147483648\n",
    b"0 ask 0 -0\n",
    b"0 put 1 disc 0 0 65537\n",
    b"0 put 1 disc 0 0 -1\n",
    b"0 put 1 disc 0 0\n",
    b"0 put 1 disc 65537 0 1\n",
    b"0 put 1 poly 0 0 10 0 20 0 0 10\n",
    b"0 put 1 poly 0 0 0 10 10 0\n",
    b"0 put 1 poly 100 0 -81 59 31 -95 31 95 -81 -59\n",
    b"0 put 1 poly 0 0 10 0 0\n",
    b"0 put 1 poly 0 0 10 0\n",
    b"0 put 1 poly\n",
    b"0 put 1 poly 3 0 2 2 0 3 -2 2 -3 0 -2 -2 0 -3 2 -2 3\n",
    b"0 put 1 poly 4 1 3 3 1 4 -1 4 -3 3 -4 1 -4 -1 -1 -4 4 -1\n",
    b"0 put 1 line 0 0 1 1\n",
];

struct FaultCase {
    text: &'static [u8],
    line: u32,
}

const BAD_LATER_LINES: [FaultCase; 3] = [
    FaultCase {
        text: b"0 del 1\n0 del 1",
        line: 2,
    },
    FaultCase {
        text: b"0 del 1\n\n0 del 1\n",
        line: 2,
    },
    FaultCase {
        text: b"0 del 1\n1 sync\n7 tick\n0 del x\n",
        line: 4,
    },
];

const REPORT_FAULTS: [FaultCase; 34] = [
    FaultCase { text: b"", line: 1 },
    FaultCase {
        text: b"end 0 0 0",
        line: 1,
    },
    FaultCase {
        text: b"\n",
        line: 1,
    },
    FaultCase {
        text: b"slot\n",
        line: 2,
    },
    FaultCase {
        text: b"slot\nabsent\n",
        line: 3,
    },
    FaultCase {
        text: b"slot\nabsent",
        line: 2,
    },
    FaultCase {
        text: b"slot\nend 0 0 0\nslot\n",
        line: 3,
    },
    FaultCase {
        text: b"slot\nend 0 0 0\nend 0 0 0\n",
        line: 3,
    },
    FaultCase {
        text: b"end 0 0 0\nx",
        line: 2,
    },
    FaultCase {
        text: b"end 0 0 0\n\n",
        line: 2,
    },
    FaultCase {
        text: b"put 1\nput 02\nend 2 0 0\n",
        line: 2,
    },
    FaultCase {
        text: b"end 0 0\n",
        line: 1,
    },
    FaultCase {
        text: b"end 0 0 0 0\n",
        line: 1,
    },
    FaultCase {
        text: b"end 0 0 4294967296\n",
        line: 1,
    },
    FaultCase {
        text: b"count 1\nend 0 0 0\n",
        line: 1,
    },
    FaultCase {
        text: b"slot \nend 0 0 0\n",
        line: 1,
    },
    FaultCase {
        text: b"del -1\nend 0 0 0\n",
        line: 1,
    },
    FaultCase {
        text: b"limits 0\nend 0 0 0\n",
        line: 1,
    },
    FaultCase {
        text: b"limits middle 0\nend 0 0 0\n",
        line: 1,
    },
    FaultCase {
        text: b"tick\nend 0 0 0\n",
        line: 1,
    },
    FaultCase {
        text: b"tick put 1 5 box 5 0 4 1\nend 0 0 0\n",
        line: 1,
    },
    FaultCase {
        text: b"tick put 1 65536 box 0 0 1 1\nend 0 0 0\n",
        line: 1,
    },
    FaultCase {
        text: b"tick del 1\nend 0 0 0\n",
        line: 1,
    },
    FaultCase {
        text: b"ask 0 path 0 3 2048\nend 0 0 0\n",
        line: 1,
    },
    FaultCase {
        text: b"ask 0 nostart\nend 0 0 0\n",
        line: 1,
    },
    FaultCase {
        text: b"ask 0 nostart 2 0 b\nend 0 0 0\n",
        line: 1,
    },
    FaultCase {
        text: b"ask 0 nostart 1 0 d\nend 0 0 0\n",
        line: 1,
    },
    FaultCase {
        text: b"ask 0 nostart 1 0 c\nend 0 0 0\n",
        line: 1,
    },
    FaultCase {
        text: b"ask 0 nostart 13 0 b 0 b 0 b 0 b 0 b 0 b 0 b 0 b 0 b 0 b 0 b 0 b 0 b\nend 0 0 0\n",
        line: 1,
    },
    FaultCase {
        text: b"ask 0 cut 0 0 1 0 2049\nend 0 0 0\n",
        line: 1,
    },
    FaultCase {
        text: b"ask 0 path 0 0 0 0 0 0 1 --\nend 0 0 0\n",
        line: 1,
    },
    FaultCase {
        text: b"ask 0 path 0 0 0 0 0 0 1 -1\nend 0 0 0\n",
        line: 1,
    },
    FaultCase {
        text: b"ask 0 path 0 0 0 0 0 0 1 18446744073709551616\nend 0 0 0\n",
        line: 1,
    },
    FaultCase {
        text: b"ask 0 unsound 0 0 1 0 0\nend 0 0 0\n",
        line: 1,
    },
];

struct ReportCase {
    full: &'static [u8],
    brief: &'static [u8],
}

const REPORTS: [ReportCase; 14] = [
    ReportCase {
        full: b"end 0 0 0\n",
        brief: b"end 0 0 0\n",
    },
    ReportCase {
        full: b"count 0 0\nput 1\ncount 1 1\ncount 1 0\ndel 2\nempty 2\nend 2 0 0\n",
        brief: b"count 0 0\nput 1\ncount 1 1\ncount 1 0\ndel 2\nempty 2\nend 2 0 0\n",
    },
    ReportCase {
        full: b"put 1\nslot\nabsent\nlimits start 0\nlimits goal 5\nfull 65536\nmemory\nend 1 0 1\n",
        brief: b"put 1\nslot\nabsent\nlimits start 0\nlimits goal 5\nfull 65536\nmemory\nend 1 0 1\n",
    },
    ReportCase {
        full: b"ask 0 path 0 0 3 0 2048 3 0 1 3 4 0 1024 1024 2048\nend 0 0 0\n",
        brief: b"ask 0 path 0 3 2048\nend 0 0 0\n",
    },
    ReportCase {
        full: b"ask 0 path 0 0 0 0 0 1 0 4 0 1024 1024 2048\nend 0 0 0\n",
        brief: b"ask 0 path 0 0 0\nend 0 0 0\n",
    },
    ReportCase {
        full: b"put 1\nask 1 cut 0 0 1 0 2 0 2\nend 1 0 1\n",
        brief: b"put 1\nask 1 cut 0 1\nend 1 0 1\n",
    },
    ReportCase {
        full: b"put 1\nask 1 nostart 4 0 b 1 b 2 b 3 b\nend 1 4 3\n",
        brief: b"put 1\nask 1 nostart\nend 1 4 3\n",
    },
    ReportCase {
        full: b"put 1\nask 1 nostart 4 0 c 15 1 c 15 2 c 15 3 c 15\nask 1 nogoal 4 0 c 15 1 c 15 2 c 15 3 c 15\nend 1 0 1\n",
        brief: b"put 1\nask 1 nostart\nask 1 nogoal\nend 1 0 1\n",
    },
    ReportCase {
        full: b"tick put 1 1020 box 140 140 150 150\ncount 1 1\ntick put 2 1020 box 140 -150 150 -140\ntick del 3 1020\ntick idle\nend 3 0 0\n",
        brief: b"tick put 1 1020 box 140 140 150 150\ncount 1 1\ntick put 2 1020 box 140 -150 150 -140\ntick del 3 1020\ntick idle\nend 3 0 0\n",
    },
    ReportCase {
        full: b"tick empty 0 1022\ntick idle\ntick shape\ntick slot\ntick full 65536\nend 0 0 0\n",
        brief: b"tick empty 0 1022\ntick idle\ntick shape\ntick slot\ntick full 65536\nend 0 0 0\n",
    },
    ReportCase {
        full: b"tick put 1 1016 disc 300 -300 20\ntick put 2 1019 poly 500 0 560 0 530 50\nend 2 0 0\n",
        brief: b"tick put 1 1016 disc 300 -300 20\ntick put 2 1019 poly 500 0 560 0 530 50\nend 2 0 0\n",
    },
    ReportCase {
        full: b"put 1\nsync 1\nask 1 unsound 0 0 1 0 0 15\nend 1 0 0\n",
        brief: b"put 1\nsync 1\nask 1 unsound 0 15\nend 1 0 0\n",
    },
    ReportCase {
        full: b"ask 0 path 0 0 2 2 1 c 7 3 b 1224 3 0 1 2 4 0 400 1224 -\nend 0 1 2\n",
        brief: b"ask 0 path 0 2 1224\nend 0 1 2\n",
    },
    ReportCase {
        full: b"ask 0 path 0 0 0 0 18446744073709551615 0 0\nend 4294967295 4 3\n",
        brief: b"ask 0 path 0 0 18446744073709551615\nend 4294967295 4 3\n",
    },
];

/// A line so many times.
fn repeated(alloc: Global, line: &[u8], count: u32) -> Result<Vec<u8>, Fail> {
    let mut text = Vec::new(alloc);
    for _at in 0..count {
        text.extend_from_slice(line)?;
    }
    Ok(text)
}

#[test]
fn logs_are_read_and_printed(rt: HostRuntime) -> Result<(), Fail> {
    for text in &LOGS {
        match read_log(rt.alloc(), text, 1) {
            Ok(lines) => {
                let printed = print_log(rt.alloc(), lines.as_slice())?;
                assert_eq!(rt; printed.as_slice(), *text);
            }
            Err(fault) => assert_eq!(rt; Some(fault), None),
        }
    }
    Ok(())
}

#[test]
fn each_kind_of_line_is_read(rt: HostRuntime) -> Result<(), Fail> {
    let text =
        b"0 put 9 box 1 2 3 4\n1 put 8 disc -5 6 7\n2 del 3\n3 count node 4\n4 count edge 5\n5 ask 1 -2\n6 sync\n7 tick\n";
    match read_log(rt.alloc(), text, 1) {
        Ok(lines) => {
            for (place, line) in lines.as_slice().iter().enumerate() {
                assert_eq!(rt; line.caller as usize, place);
                let told = match &line.act {
                    Act::Put(
                        9,
                        Shape::Rect {
                            x0: 1,
                            y0: 2,
                            x1: 3,
                            y1: 4,
                        },
                    ) => 0,
                    Act::Put(8, Shape::Disc { x: -5, y: 6, r: 7 }) => 1,
                    Act::Del(3) => 2,
                    Act::Count(Element::Node(4)) => 3,
                    Act::Count(Element::Edge(5)) => 4,
                    Act::Ask(start, goal)
                        if start.as_slice() == [1].as_slice()
                            && goal.as_slice() == [-2].as_slice() => 5,
                    Act::Sync => 6,
                    Act::Tick => 7,
                    _ => 8,
                };
                assert_eq!(rt; told, place);
            }
            assert_eq!(rt; lines.as_slice().len(), 8);
        }
        Err(fault) => assert_eq!(rt; Some(fault), None),
    }
    Ok(())
}

#[test]
fn the_first_bad_line_is_named(rt: HostRuntime) -> Result<(), Fail> {
    for text in &BAD_FIRST_LINES {
        let fault = read_log(rt.alloc(), text, 1).err();
        assert_eq!(rt; fault, Some(LogFault::Line(1)));
    }
    for case in &BAD_LATER_LINES {
        let fault = read_log(rt.alloc(), case.text, 1).err();
        assert_eq!(rt; fault, Some(LogFault::Line(case.line)));
        match read_good_lines(rt.alloc(), case.text, 1) {
            Ok(found) => {
                assert_eq!(rt; found.lines.as_slice().len() + 1, case.line as usize);
                assert_eq!(rt; found.bad, Some(case.line));
            }
            Err(fault) => assert_eq!(rt; Some(fault), None),
        }
    }
    Ok(())
}

#[test]
fn asks_have_the_joints_of_the_arm(rt: HostRuntime) -> Result<(), Fail> {
    let text = b"0 ask 1 2 3 4 5 6\n";
    assert!(rt; read_log(rt.alloc(), text, 3).is_ok());
    assert_eq!(rt;
        read_log(rt.alloc(), text, 2).err(),
        Some(LogFault::Line(1))
    );
    assert_eq!(rt;
        read_log(rt.alloc(), text, 4).err(),
        Some(LogFault::Line(1))
    );
    Ok(())
}

#[test]
fn logs_have_limits(rt: HostRuntime) -> Result<(), Fail> {
    let mut lines = repeated(rt.alloc(), b"0 sync\n", 200_000)?;
    assert!(rt; read_log(rt.alloc(), &lines, 1).is_ok());
    lines.push(b'x')?;
    assert_eq!(rt;
        read_log(rt.alloc(), &lines, 1).err(),
        Some(LogFault::Lines(200_001))
    );
    let mut asks = repeated(rt.alloc(), b"0 ask 0 0\n", 4_096)?;
    assert!(rt; read_log(rt.alloc(), &asks, 1).is_ok());
    asks.extend_from_slice(b"0 sync\n0 ask 0 0\n0 ask 0 0\n")?;
    assert_eq!(rt;
        read_log(rt.alloc(), &asks, 1).err(),
        Some(LogFault::Line(4_098))
    );
    Ok(())
}

#[test]
fn reports_are_read_and_printed(rt: HostRuntime) -> Result<(), Fail> {
    for case in &REPORTS {
        assert!(rt; case.full.len() < 1_000);
        match read_report(rt.alloc(), case.full) {
            Ok(report) => {
                let full = print_full(rt.alloc(), &report)?;
                assert_eq!(rt; full.as_slice(), case.full);
                let brief = print_brief(rt.alloc(), &report)?;
                assert_eq!(rt; brief.as_slice(), case.brief);
            }
            Err(fault) => assert_eq!(rt; Some(fault), None),
        }
    }
    Ok(())
}

#[test]
fn a_path_is_read(rt: HostRuntime) -> Result<(), Fail> {
    let text = b"ask 9 path 0 0 2 2 1 c 7 3 b 1224 3 0 1 2 4 0 400 1224 -\nend 0 1 2\n";
    match read_report(rt.alloc(), text) {
        Ok(report) => {
            assert_eq!(rt; (report.number, report.nodes, report.edges), (0, 1, 2));
            for reply in report.replies.as_slice() {
                match reply {
                    Reply::Ask(
                        number,
                        Answer::Path {
                            start,
                            goal,
                            length,
                            nodes,
                            labels,
                        },
                    ) => {
                        assert_eq!(rt; (*number, start.node, goal.node, *length), (9, 0, 2, 1224));
                        assert_eq!(rt;
                            (start.tried.as_slice().len(), goal.tried.as_slice().len()),
                            (0, 2)
                        );
                        assert_eq!(rt; nodes.as_slice(), [0, 1, 2].as_slice());
                        assert_eq!(rt;
                            labels.as_slice(),
                            [Some(0), Some(400), Some(1224), None].as_slice()
                        );
                    }
                    _ => assert!(rt; false),
                }
            }
        }
        Err(fault) => assert_eq!(rt; Some(fault), None),
    }
    Ok(())
}

#[test]
fn the_first_bad_line_of_a_report_is_named(rt: HostRuntime) -> Result<(), Fail> {
    for case in &REPORT_FAULTS {
        assert!(rt; case.text.len() < 1_000);
        let fault = read_report(rt.alloc(), case.text).err();
        assert_eq!(rt; fault, Some(ReportFault::Line(case.line)));
    }
    Ok(())
}
