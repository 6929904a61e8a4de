// Lines that are no formula or name what the model lacks, and how the lines are told apart.
use crate::Case;
use crate::examples::UPLOAD;

// No line of these is a formula.
const NO_FORMULAS: &str = "AF {ack
af {ack}
TRUE FALSE
TRUE AND
E[TRUE U TRUE
U
{ack}
EX {}
ack
!
";

// What tells how closely NOT, AND, OR and the operators bind.
const BINDING: &str = "NOT FALSE AND FALSE
TRUE OR FALSE AND FALSE
NOT (TRUE OR FALSE)
EX {meas} FALSE OR TRUE
";

/// What becomes of lines.
pub(crate) const CASES: [Case; 13] = [
    Case {
        title: "the last line with byte 10",
        model: UPLOAD,
        formulas: "EX {lost}\nAF {ack}\n",
    },
    Case {
        title: "the last line without byte 10",
        model: UPLOAD,
        formulas: "EX {lost}\nAF {ack}",
    },
    Case {
        title: "empty lines before, between and after",
        model: UPLOAD,
        formulas: "\nEX {lost}\n\n\nAF {ack}\n\n",
    },
    Case {
        title: "a line of spaces, and a formula among spaces",
        model: UPLOAD,
        formulas: "   \n  AX  { meas }  \n",
    },
    Case {
        title: "lines that are no formula",
        model: UPLOAD,
        formulas: NO_FORMULAS,
    },
    Case {
        title: "a tab, a byte 13, a byte 0 and a letter past 127",
        model: UPLOAD,
        formulas: "EX\t{ack}\nEX {ack}\r\nEX\0{ack}\nEX {é}\n",
    },
    Case {
        title: "names that the model lacks",
        model: UPLOAD,
        formulas: "EX {nack}\nEX {ack OR nack}\nEX {NOT nack}\nE[{ack} U {sent}]\n",
    },
    Case {
        title: "no formula, with a name that the model lacks",
        model: UPLOAD,
        formulas: "EX {nack\n",
    },
    Case {
        title: "a name of sixteen bytes, and one of seventeen",
        model: UPLOAD,
        formulas: "EX {abcdefghijklmnop}\nEX {abcdefghijklmnopq}\n",
    },
    Case {
        title: "refused lines between others",
        model: UPLOAD,
        formulas: "AX {meas}\nEX {nack}\nEX {lost}\n\nEX {ack\nAF {ack}\n",
    },
    Case {
        title: "the silent action by both its names",
        model: "des (0,2,2)\n(0,\"tau\",1)\n(1,\"a\",0)\n",
        formulas: "EX {TAU}\nEX {tau}\nEX {NOT TAU}\nAX {NOT a}\nEF {a}\n",
    },
    Case {
        title: "how NOT, AND and OR bind",
        model: UPLOAD,
        formulas: BINDING,
    },
    Case {
        title: "one and two of three states",
        model: "des (0,1,3)\n(0,\"a\",1)\n",
        formulas: "EX {a}\nNOT EX {a}\n",
    },
];
