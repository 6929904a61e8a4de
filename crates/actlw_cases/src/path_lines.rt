// Each kind of path, and formulas without one.
use crate::Case;

// Two states, each a step from the other.
const ROUND: &str = "des (0,2,2)\n(0,\"a\",1)\n(1,\"b\",0)\n";

// A start that is not state 0.
const LATER: &str =
    "des (2,5,4)\n(0,\"a\",1)\n(1,\"b\",0)\n(2,\"c\",3)\n(3,\"d\",1)\n(3,\"e\",2)\n";

// Several ways to a step by b.
const WAYS: &str = "des (0,6,5)
(0,\"a\",1)
(1,\"a\",2)
(2,\"b\",4)
(0,\"a\",3)
(3,\"a\",1)
(0,\"c\",2)
";

// Formulas of the kinds that have no path.
const WITHOUT_PATHS: &str = "TRUE
FALSE
NOT TRUE
EX {a} AND EX {a}
EX {b} OR EX {a}
NOT (EX {a} OR TRUE)
";

/// What is shown.
pub(crate) const CASES: [Case; 13] = [
    Case {
        title: "a lone deadlocked start",
        model: "des (0,0,1)\n",
        formulas: "EG TRUE\nAF TRUE\nA[TRUE U TRUE]\nAG FALSE\nEF TRUE\nEX TRUE\nAX FALSE\n",
    },
    Case {
        title: "a deadlocked start beside other states",
        model: "des (1,2,3)\n(0,\"a\",1)\n(2,\"b\",0)\n",
        formulas: "EG {a}\nAF {b}\nNOT EG {a}\n",
    },
    Case {
        title: "a cycle without a stem",
        model: ROUND,
        formulas: "EG TRUE\nEG {a OR b}\nAF {TAU}\nE[{NOT TAU} W {TAU}]\n",
    },
    Case {
        title: "a cycle of one step, without a stem and after one",
        model: "des (0,3,2)\n(0,\"a\",0)\n(0,\"b\",1)\n(1,\"c\",1)\n",
        formulas: "EG {a}\nEG {NOT a}\nAF {c}\nA[{b} U {NOT c}]\n",
    },
    Case {
        title: "a stem that ends",
        model: "des (0,3,3)\n(0,\"a\",1)\n(1,\"b\",2)\n(0,\"c\",0)\n",
        formulas: "EG {NOT c}\nAF {c}\nEG TRUE\n",
    },
    Case {
        title: "a path that ends, before one with a cycle",
        model: "des (0,3,3)\n(0,\"a\",0)\n(0,\"a\",1)\n(1,\"a\",2)\n",
        formulas: "EG {a}\nAF {TAU}\n",
    },
    Case {
        title: "a decisive path, before one that lasts",
        model: ROUND,
        formulas: "E[TRUE W {b}]\nA[{a} U {TAU}]\n",
    },
    Case {
        title: "a last step back to a state that was left",
        model: ROUND,
        formulas: "EF {b}\nEF {b} EX {a}\nAG {a}\nA[{a} W FALSE]\n",
    },
    Case {
        title: "the fewest steps of several ways",
        model: WAYS,
        formulas: "EF {b}\nE[{a} U {b}]\nAG {NOT b}\n",
    },
    Case {
        title: "NOTs in front",
        model: ROUND,
        formulas: "NOT EF {b}\nNOT NOT EF {b}\nNOT NOT NOT AG {a}\nNOT AX {a}\n",
    },
    Case {
        title: "formulas that no path shows",
        model: ROUND,
        formulas: WITHOUT_PATHS,
    },
    Case {
        title: "E formulas that fail, and A formulas that hold",
        model: ROUND,
        formulas: "EX {b}\nEF {TAU}\nE[{a} U {TAU}]\nAX {a}\nAF {b}\nAG {a OR b}\nNOT AF {b}\n",
    },
    Case {
        title: "a start that is not state 0",
        model: LATER,
        formulas: "EX {c}\nEX {a}\nEF {b}\nEG {c OR e}\nEG {a OR b}\nAX {a}\nAG {NOT b}\nAF {a}\n",
    },
];
