// Models that are refused, and inputs with a model alone.
use crate::Case;
use crate::examples::UPLOAD;

// Formulas that are judged by any model.
const ANY: &str = "TRUE\nEX {TAU}\n";

/// What becomes of a model.
pub(crate) const CASES: [Case; 22] = [
    Case {
        title: "an empty input",
        model: "",
        formulas: "",
    },
    Case {
        title: "formulas without a model",
        model: "",
        formulas: ANY,
    },
    Case {
        title: "a model and no formula",
        model: UPLOAD,
        formulas: "",
    },
    Case {
        title: "a line one without its byte 10",
        model: "des (0,0,1)",
        formulas: "",
    },
    Case {
        title: "spaces after commas",
        model: "des (0, 2, 2)\n(0, \"a\",1)\n(1,\"b\", 0)\n",
        formulas: "EX {a}\n",
    },
    Case {
        title: "a space before a comma",
        model: "des (0 ,0,1)\n",
        formulas: ANY,
    },
    Case {
        title: "fewer lines than line one says",
        model: "des (0,3,1)\n(0,\"a\",0)\n",
        formulas: "TRUE\n",
    },
    Case {
        title: "formulas in place of the last line",
        model: "des (0,2,1)\n(0,\"a\",0)\n",
        formulas: ANY,
    },
    Case {
        title: "more lines than line one says",
        model: "des (0,1,1)\n(0,\"a\",0)\n(0,\"a\",0)\n",
        formulas: "EX {a}\n",
    },
    Case {
        title: "a needless zero",
        model: "des (0,0,01)\n",
        formulas: ANY,
    },
    Case {
        title: "a numeral of six digits",
        model: "des (0,0,100000)\n",
        formulas: ANY,
    },
    Case {
        title: "lines that end with bytes 13 and 10",
        model: "des (0,1,1)\r\n(0,\"a\",0)\r\n",
        formulas: ANY,
    },
    Case {
        title: "a label of sixteen bytes",
        model: "des (0,1,1)\n(0,\"abcdefghijklmnop\",0)\n",
        formulas: "EX {abcdefghijklmnop}\n",
    },
    Case {
        title: "a label of seventeen bytes",
        model: "des (0,1,1)\n(0,\"abcdefghijklmnopq\",0)\n",
        formulas: ANY,
    },
    Case {
        title: "a label in capitals",
        model: "des (0,1,1)\n(0,\"A\",0)\n",
        formulas: ANY,
    },
    Case {
        title: "no state",
        model: "des (0,0,0)\n",
        formulas: ANY,
    },
    Case {
        title: "a start that is no state",
        model: "des (1,0,1)\n",
        formulas: ANY,
    },
    Case {
        title: "a step from no state",
        model: "des (0,1,1)\n(1,\"a\",0)\n",
        formulas: ANY,
    },
    Case {
        title: "a step to no state",
        model: "des (0,1,1)\n(0,\"a\",1)\n",
        formulas: ANY,
    },
    Case {
        title: "65,537 states",
        model: "des (0,0,65537)\n",
        formulas: ANY,
    },
    Case {
        title: "99,999 transitions, none of them there",
        model: "des (0,99999,1)\n",
        formulas: ANY,
    },
    Case {
        title: "a step to no state, and a needless zero after it",
        model: "des (0,2,1)\n(0,\"a\",1)\n(00,\"a\",0)\n",
        formulas: ANY,
    },
];
