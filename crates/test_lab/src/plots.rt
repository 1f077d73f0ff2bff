//! Pictures of tables and routes: what stands in them.

use lab_plot::PlotFault;
use lab_route_plot::{Cycles, plot};
use std::alloc::Global;
use test_generators::{Call, first_not_so};

/// A table, and texts that its picture has, one behind another.
#[derive(Clone, Copy, Debug, PartialEq, Eq)]
struct Row {
    table: &'static str,
    parts: &'static [&'static str],
}

// Places are counted by hand: a panel is 5600 wide and 2400 high, and a tick is 1, 2 or 5 with zeros behind.
static ROWS: [Row; 12] = [
    // Petit cycles 10 to 14, a tick for each; up to 4 messages, a tick for each.
    Row {
        table: "cycle,taken,delivered,referred,standing,full,asking
10,4,1,0,3,0,20
12,0,2,1,1,1,0
14,0,1,0,0,0,5
",
        parts: &[
            "<svg xmlns='http://www.w3.org/2000/svg' version='1.1' width='830' height='720' viewBox='0 0 8300 7200' ",
            ">What the router does in each petit cycle</text>\n",
            "<g transform='translate(1000,600)'>\n",
            "d='M0 2400h5600'/><text text-anchor='end' x='-80' y='2450'>0</text>\n",
            "d='M0 1800h5600'/><text text-anchor='end' x='-80' y='1850'>1</text>\n",
            "d='M0 0h5600'/><text text-anchor='end' x='-80' y='50'>4</text>\n",
            "d='M0 0v2400'/><text y='2600' x='0'>10</text>\n",
            "d='M5600 0v2400'/><text y='2600' x='5600'>14</text>\n",
            ">petit cycle</text>\n",
            ">messages</text>\n",
            "stroke='#0072b2' points=' 0,0 2800,2400 5600,2400'/>\n",
            "<circle r='40' cx='0' cy='0' fill='#0072b2'/>\n",
            "' d='M5750 100h300'/><text text-anchor='start' x='6130' y='150'>taken</text>\n",
            "stroke='#d55e00' points=' 0,1800 2800,1200 5600,1800'/>\n",
            ">delivered</text>\n",
            "stroke='#009e73' points=' 0,2400 2800,1800 5600,2400'/>\n",
            ">referred</text>\n",
            "stroke='#cc79a7' points=' 0,600 2800,1800 5600,2400'/>\n",
            ">standing</text>\n</g>\n",
            "<g transform='translate(1000,3900)'>\n",
            ">20</text>\n",
            "points=' 0,2400 2800,2280 5600,2400'/>\n",
            ">full</text>\n",
            "points=' 0,0 2800,2400 5600,1800'/>\n",
            ">asking</text>\n</g>\n</svg>\n",
        ],
    },
    // Rates from 0 to 1, latencies to 4, throughputs to 1; nothing was delivered under the second load.
    Row {
        table: "rate,offered,taken,delivered,throughput,mean,p95,greatest,deepest
0.50,51084,51084,51010,0.498,1.40,2,5,0
0.75,0,0,0,0.000,0.00,,0,0
1.00,102128,102127,101868,1.000,1.89,4,6,1
",
        parts: &[
            ">Latency and throughput against load</text>\n",
            ">0.2</text>\n",
            ">messages that a chip offers in a petit cycle</text>\n",
            ">latency in petit cycles</text>\n",
            "points=' 2800,1560 4200,2400 5600,1266'/>\n",
            ">mean</text>\n",
            "points=' 2800,1200 5600,0'/>\n",
            ">p95</text>\n",
            ">throughput of a chip</text>\n",
            "points=' 2800,1205 4200,2400 5600,0'/>\n",
            ">throughput</text>\n</g>\n</svg>\n",
        ],
    },
    // One message took one petit cycle, two took three, and one was not delivered: lines that stand on the axis.
    Row {
        table: "chip,processor,taken,to chip,to processor,delivered,crossed,referred
0,0,0,0,0,0,0,0
8,0,1,0,8,3,1,0
9,0,5,0,9,7,2,0
1,0,0,0,1,,0,0",
        parts: &[
            " height='390' viewBox='0 0 8300 3900' ",
            ">How long messages took</text>\n",
            ">petit cycles</text>\n",
            "points=' 0,2400 0,2400 0,2400 1866,2400 1866,1200 1866,2400 \
             3733,2400 3733,2400 3733,2400 5600,2400 5600,0 5600,2400'/>\n",
            ">messages</text>\n</g>\n</svg>\n",
        ],
    },
    // Under one load two messages took one petit cycle; under another one took one, and four took two.
    Row {
        table: "latency,rate 0.50,rate 1.50\n1,2,1\n2,0,4\n",
        parts: &[
            " height='390' viewBox='0 0 8300 3900' ",
            ">How long messages took under loads</text>\n",
            ">petit cycles</text>\n",
            ">messages</text>\n",
            "points=' 2800,1200 5600,2400'/>\n",
            ">rate 0.50</text>\n",
            "points=' 2800,1800 5600,0'/>\n",
            ">rate 1.50</text>\n</g>\n</svg>\n",
        ],
    },
    // Loads that are compared, with what is written upward, and names that XML has to have otherwise.
    Row {
        table: "rate: mean & more,N = 6,<8>\n1,1.5,2\n2,2.125,\n",
        parts: &[
            ">Loads compared</text>\n",
            "rotate(-90)'> mean &amp; more</text>\n",
            "points=' 2800,960 5600,360'/>\n",
            ">N = 6</text>\n",
            "points=' 2800,480'/>\n",
            ">&lt;8&gt;</text>\n</g>\n</svg>\n",
        ],
    },
    // One row of zeros: an axis goes one step at the least.
    Row {
        table: "cycle,taken,delivered,referred,standing,full,asking\n9223372036854775,0,0,0,0,0,0\n",
        parts: &[
            ">9223372036854775</text>\n",
            "points=' 0,2400'/>\n",
            "</svg>\n",
        ],
    },
    // A name of fifteen letters, and one of sixteen; what is written upward has 33.
    Row {
        table: "rate:what is written upward; 33 letter,fifteen letters,sixteen letters!\n1,1,2\n",
        parts: &[
            "rotate(-90)'>what is written upward; 33 lett&#8230;</text>\n",
            ">fifteen letters</text>\n",
            ">sixteen letter&#8230;</text>\n</g>\n</svg>\n",
        ],
    },
    // As a spreadsheet writes it: ends of lines of two bytes, blank lines, blanks behind commas, five digits.
    Row {
        table: "\r\nrate: mean,  first , second\r\n\r\n1, 1.23456, 2\r\n2,2.125,\r\n \t\r\n",
        parts: &[
            "rotate(-90)'> mean</text>\n",
            "points=' 2800,1216 5600,360'/>\n",
            ">first</text>\n",
            "points=' 2800,480'/>\n",
            ">second</text>\n</g>\n</svg>\n",
        ],
    },
    // Petit cycles 8 and 9, two dimensions in each; four rows, of the chips 0, 1, 3 and 2.
    Row {
        table: "cycle 8: 0 -> 1 -> 3, referred in 0, place 1 of 1
cycle 9: 3 -> 2 -> 0, referred in 1, place 1 of 1
stands at 0, for processor 3 of chip 2
",
        parts: &[
            " height='390' viewBox='0 0 8300 3900' ",
            ">The way of a message</text>\n",
            "<g transform='translate(1000,600)'>\n",
            "d='M0 0v2400'/><text y='2600' x='1400'>8</text>\n",
            "d='M2800 0v2400'/><text y='2600' x='4200'>9</text>\n<path stroke='#ddd' stroke-width='8' ",
            "d='M0 300h5600'/><text text-anchor='end' x='-80' y='350'>0</text>\n",
            "d='M0 900h5600'/><text text-anchor='end' x='-80' y='950'>1</text>\n",
            "d='M0 1500h5600'/><text text-anchor='end' x='-80' y='1550'>3</text>\n",
            "d='M0 2100h5600'/><text text-anchor='end' x='-80' y='2150'>2</text>\n",
            ">petit cycle</text>\n",
            ">chip</text>\n",
            "stroke='#0072b2' points=' 0,300 0,300 0,300 1400,900 1400,900 2800,1500 2800,1500 2800,1500",
            " 2800,1500 2800,1500 2800,1500 4200,2100 4200,2100 5600,300 5600,300 5600,300'/>\n",
            "stroke='#d55e00' points='0,300 1400,900'/>\n",
            "stroke='#d55e00' points='4200,2100 5600,300'/>\n",
            "<circle r='40' cx='0' cy='300' fill='#009e73'/>\n",
            ">way</text>\n",
            ">referred</text>\n",
            ">begins</text>\n",
            ">delivered</text>\n</g>\n</svg>\n",
        ],
    },
    // One dimension; delivered at the end of the petit cycle.
    Row {
        table: "cycle 0: 0 -> 1, delivered to processor 5\n",
        parts: &[
            "points=' 0,600 0,600 0,600 5600,1800 5600,1800 5600,1800'/>\n",
            "<circle r='40' cx='5600' cy='1800' fill='#cc79a7'/>\n",
            "<circle r='40' cx='0' cy='600' fill='#009e73'/>\n",
            ">delivered</text>\n</g>\n</svg>\n",
        ],
    },
    // The same with ends of lines of two bytes, and blank lines.
    Row {
        table: "\n cycle 0: 0 -> 1, delivered to processor 5\r\n\r\n",
        parts: &[
            "d='M0 0v2400'/><text y='2600' x='2800'>0</text>\n",
            "points=' 0,600 0,600 0,600 5600,1800 5600,1800 5600,1800'/>\n",
            "<circle r='40' cx='5600' cy='1800' fill='#cc79a7'/>\n",
            "</svg>\n",
        ],
    },
    // One that stays.
    Row {
        table: "cycle 2: 8, stays, place 2 of 3\nstands at 8, for processor 0 of chip 0\n",
        parts: &[
            "d='M0 1200h5600'/><text text-anchor='end' x='-80' y='1250'>8</text>\n",
            "points=' 0,1200 0,1200 5600,1200 5600,1200'/>\n",
            "<circle r='40' cx='0' cy='1200' fill='#009e73'/>\n",
            "</svg>\n",
        ],
    },
];

/// Whether a text has these parts, one behind another, and ends with the last.
fn has_parts(text: &str, parts: &[&str]) -> bool {
    let mut rest = text;
    for part in parts {
        match rest.split_once(*part) {
            Some((_, behind)) => rest = behind,
            None => return false,
        }
    }
    rest.is_empty()
}

impl Call for Row {
    fn is_so(&self, alloc: Global) -> Option<bool> {
        let made = match plot(alloc, self.table.as_bytes(), Cycles::ALL) {
            Err(PlotFault::Memory) => plot(alloc, self.table.as_bytes(), Cycles::ALL),
            made => made,
        };
        let picture = made.ok()?;
        let text = str::from_utf8(&picture).ok()?;
        Some(has_parts(text, self.parts))
    }
}

// `.ci/refusals` refuses each growth in turn.
#[test]
fn a_refused_growth_of_a_picture_is_told_as_want_of_memory(rt: HostRuntime) {
    assert_eq!(rt; first_not_so(rt.alloc(), &ROWS), None);
}
